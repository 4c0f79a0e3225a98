//! What a client makes of what a session sends it.
ghost use Rattle.both_ends.specs.Beginnings.{RepliesAccept};
ghost use Rattle.both_ends.specs.Copies.{HandedHasPoints, IdleHasPoints};
ghost use Rattle.both_ends.specs.Ends.{ClientHasPoints, ClientIsHanded, IdleClientHasPoints};
ghost use Rattle.both_ends.specs.Hearing.{NewsAreHeard};
ghost use Rattle.both_ends.specs.News.{NewsAreHandedOn};
ghost use Rattle.both_ends.specs.Notices.{NoticesAreChanges, ReadNoticesAreChanges};
ghost use Rattle.both_ends.specs.Stops.{StopsAreTold};

use client_core::copies_are_folds;
use client_laws::parts_are_joined;
use session_core::run_streams;
use session_laws::subscriptions_are_replied;
use store_machine::stream_laws;

/// A client whose subscription of a channel is active returns exactly the change that a session sends of the channel, with the last part of
/// the notice, and takes it into its copy; nothing else of it changes. This holds for headers and messages, and for bytes that are read as
/// these.
pub fn notices_are_changes()
    ensures messages { NoticesAreChanges }
    ensures bytes { ReadNoticesAreChanges }
{
    parts_are_joined();
}

/// A client whose subscriptions are active returns exactly the changes that a session sends in one poll, in their order, in whatever parts
/// and with whatever ids its notices are sent, and takes them into its copies. For each channel that is what is heard in the messages that
/// the session sends.
pub fn news_are_handed_on()
    ensures handed { NewsAreHandedOn }
    ensures heard { NewsAreHeard }
{
    notices_are_changes();
}

/// The reply that grants a client's ask for a subscription ends that ask, and the subscription is active from there on, with an empty copy.
pub fn replies_accept()
    ensures { RepliesAccept }
{
    parts_are_joined();
}

/// If a session ends subscriptions, the last part of its message gives its client the reason; from there on the client's subscriptions of
/// those channels are not active, and no others change.
pub fn stops_are_told()
    ensures { StopsAreTold }
{
    parts_are_joined();
}

/// A client that returned, since its subscription of a channel with all changes was accepted, what a session has sent of the channel has in
/// its copy the channel's points from its start on, as they are in the one history at the session's cursor; if a poll asks nothing, at the
/// front that the poll reports.
pub fn handed_copies_are_points()
    ensures cursor { HandedHasPoints }
    ensures idle { IdleHasPoints }
{
    copies_are_folds();
    run_streams();
    stream_laws();
}

/// A client that took all that a session sent, if the session was given a prefix of what the client sent, received of each channel that the
/// session has subscribed to what the session sent since its last stop. So if the subscription has all changes, its copy is the channel's
/// points from the subscription's start on, as they are in the one history at the session's cursor; if a poll asks nothing, at the front
/// that the poll reports. What was asked when doesn't matter, nor what is on its way to the session: a reply that no ask awaits would have
/// ended the client.
pub fn clients_have_points()
    ensures handed { ClientIsHanded }
    ensures cursor { ClientHasPoints }
    ensures idle { IdleClientHasPoints }
{
    copies_are_folds();
    run_streams();
    subscriptions_are_replied();
    stream_laws();
    notices_are_changes();
}
