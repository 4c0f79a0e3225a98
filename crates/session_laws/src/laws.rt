//! Laws of the machine that no program calls.
ghost use Rattle.session_core.specs.Granting.{SubscriptionsAreReplied};
ghost use Rattle.session_core.specs.Staged.{CallsWithin, LooksAddNothing, UncommittedIsUnseen};
ghost use Rattle.session_laws.specs.Committing.{SerialIsMet};

use store_machine::news_laws;

/// Before its commit nothing of a transaction is in the history. Within a transaction a request of Store or DataArray makes a look at the
/// keys that are noted when it is answered, and no other call; a look adds no entry; and as long as no commit is requested, the session
/// adds none that changes what is at keys. A commit is of exactly what was staged.
pub fn staged()
    ensures calls { CallsWithin }
    ensures looks { LooksAddNothing }
    ensures unseen { UncommittedIsUnseen }
{}

/// What the law of serial transactions requires of a transaction can be met.
pub fn serial_is_met()
    ensures { SerialIsMet }
{}

/// If a session makes a subscription, the event is a request that names the channel under a key, and the reply to that request grants the
/// key; it is sent before anything about the channel. No other message grants a key. Anything else that an event sends is the changes for
/// subscriptions, or that they end, or concerns none.
pub fn subscriptions_are_replied()
    ensures { SubscriptionsAreReplied }
{
    news_laws();
}
