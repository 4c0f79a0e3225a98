//! Changes that are let in, and what subscriptions are sent of them.
use crate::claims::{equal, holds};
use channel_points::{BoxedPoints, Points};
use channel_store::{ChannelChange, Sub, What};
use etp_values::{DataValue, List, NoMemory, Point};
use std::alloc::Global;
use std::process::Abort;
use std::test::Fail;
use subscribe_core::{StopCause, Subs, stop_cause};

fn points(alloc: Global, indexes: &[i64]) -> Result<Points, NoMemory> {
    let mut points = Vec::new(alloc);
    for index in indexes {
        points.push(Point {
            index: *index,
            value: DataValue::Null,
        })?;
    }
    Points::of(alloc, points)
}

fn append(alloc: Global, indexes: &[i64]) -> Result<What, NoMemory> {
    Ok(What::Append(points(alloc, indexes)?))
}

fn replace(alloc: Global, from: i64, to: i64, indexes: &[i64]) -> Result<What, NoMemory> {
    Ok(What::Replace {
        from,
        to,
        points: BoxedPoints::new(alloc, points(alloc, indexes)?)?,
    })
}

/// A subscription from index 200 on, made when the journal had this length.
fn from_200(channel: i64, from: u64, all: bool) -> Sub {
    Sub {
        channel,
        start: 200,
        from,
        all,
    }
}

/// Lets a change in, as an answer up to the place after its own; false if there is no room.
fn let_in(
    alloc: Global,
    subs: &mut Subs,
    place: u64,
    channel: i64,
    what: What,
) -> Result<bool, NoMemory> {
    let mut changes = Vec::new(alloc);
    changes.push(ChannelChange {
        place,
        channel,
        at: 1,
        what,
    })?;
    if subs.room() == 0 {
        return Ok(false);
    }
    subs.fill(place.saturating_add(1), List::from_vec(changes));
    Ok(true)
}

/// That points have these indexes.
fn has_indexes(rt: &impl Abort, points: &[Point], indexes: &[i64]) {
    equal(rt, points.len(), indexes.len());
    for (point, index) in points.iter().zip(indexes) {
        equal(rt, point.index, *index);
    }
}

/// The next change that is sent is of this channel, and has these ends and points.
fn check(
    rt: &impl Abort,
    alloc: Global,
    subs: &mut Subs,
    channel: i64,
    ends: (i64, i64),
    indexes: &[i64],
) -> Result<(), Fail> {
    let told = subs.next().ok_or("something is told")?;
    equal(rt, told.change.channel, channel);
    equal(rt, (told.from, told.end), ends);
    has_indexes(rt, told.points(alloc)?.as_slice(), indexes);
    Ok(())
}

/// What happens to subscriptions, or what they are then to send.
#[derive(Clone, Copy)]
enum Step {
    /// A channel is subscribed to from index 200 on, when the journal has this length: for all changes, or only for appended points.
    Subscribe(i64, u64, bool),
    /// A channel's subscription ends, if there was one.
    Unsubscribe(i64, bool),
    UnsubscribeAll,
    /// The entry at this place appends points with these indexes to a channel.
    Append(u64, i64, &'static [i64]),
    /// The entry at this place puts points with these indexes between two indexes of channel 0.
    Replace(u64, (i64, i64), &'static [i64]),
    /// The entry at this place removes what channel 0 has above this index.
    Truncate(u64, i64),
    /// The next change that is sent is of this channel, and has these ends and points.
    Tells(i64, (i64, i64), &'static [i64]),
    TellsNothing,
    /// This many channels are subscribed to, and this is the place of the journal from which they are sent changes.
    Has(usize, Option<u64>),
}

const FROM_THE_START: [Step; 12] = [
    Step::Subscribe(0, 3, true),
    Step::Append(3, 0, &[100, 200, 300]),
    Step::Replace(4, (150, 250), &[160, 250]),
    Step::Truncate(5, 90),
    Step::Replace(6, (10, 20), &[15]),
    Step::Append(7, 0, &[100, 199]),
    Step::Truncate(8, 260),
    Step::Tells(0, (200, 200), &[200, 300]),
    Step::Tells(0, (200, 250), &[250]),
    Step::Tells(0, (200, 199), &[]),
    Step::Tells(0, (200, 260), &[]),
    Step::TellsNothing,
];

const APPENDED_ALONE: [Step; 7] = [
    Step::Subscribe(0, 3, false),
    Step::Replace(3, (200, 250), &[220]),
    Step::Truncate(4, 210),
    Step::Append(5, 1, &[400]),
    Step::Append(6, 0, &[300]),
    Step::Tells(0, (200, 200), &[300]),
    Step::TellsNothing,
];

const AFTER_A_STOP: [Step; 16] = [
    Step::Has(0, None),
    Step::Subscribe(0, 5, true),
    Step::Subscribe(1, 9, true),
    Step::Subscribe(1, 7, false),
    Step::Has(2, Some(5)),
    Step::Append(10, 1, &[200]),
    Step::Has(2, Some(11)),
    Step::Unsubscribe(1, true),
    Step::Unsubscribe(1, false),
    Step::Append(11, 1, &[201]),
    Step::Tells(1, (200, 200), &[200]),
    Step::TellsNothing,
    Step::UnsubscribeAll,
    Step::Has(0, None),
    Step::Subscribe(1, 20, true),
    Step::Has(1, Some(20)),
];

/// Lets the change of an entry in.
fn change(
    alloc: Global,
    subs: &mut Subs,
    place: u64,
    channel: i64,
    what: Result<What, NoMemory>,
) -> Result<(), NoMemory> {
    let_in(alloc, subs, place, channel, what?)?;
    Ok(())
}

/// A step of the journal.
fn step_journal(alloc: Global, subs: &mut Subs, step: Step) -> Result<(), NoMemory> {
    match step {
        Step::Append(place, channel, indexes) => {
            change(alloc, subs, place, channel, append(alloc, indexes))
        }
        Step::Replace(place, ends, indexes) => {
            change(
                alloc,
                subs,
                place,
                0,
                replace(alloc, ends.0, ends.1, indexes),
            )
        }
        Step::Truncate(place, end) => change(alloc, subs, place, 0, Ok(What::Truncate { end })),
        _ => Ok(()),
    }
}

fn step_subscriptions(
    rt: &impl Abort,
    alloc: Global,
    subs: &mut Subs,
    step: Step,
) -> Result<(), Fail> {
    match step {
        Step::Subscribe(channel, from, all) => subs.add(from_200(channel, from, all))?,
        Step::Unsubscribe(channel, was_there) => equal(rt, subs.remove(channel), was_there),
        Step::UnsubscribeAll => subs.remove_all(),
        Step::Tells(channel, ends, indexes) => check(rt, alloc, subs, channel, ends, indexes)?,
        Step::TellsNothing => holds(rt, subs.next().is_none()),
        Step::Has(count, cursor) => equal(rt, (subs.list().len(), subs.cursor()), (count, cursor)),
        _ => step_journal(alloc, subs, step)?,
    }
    Ok(())
}

/// Goes through these steps, from no subscription on.
fn play(rt: &(impl AllocGlobal + Abort), steps: &[Step]) -> Result<(), Fail> {
    let mut subs = Subs::new(rt.alloc())?;
    for step in steps {
        step_subscriptions(rt, rt.alloc(), &mut subs, *step)?;
    }
    Ok(())
}

#[test]
fn tells_what_lies_at_or_past_the_start(rt: HostRuntime) -> Result<(), Fail> {
    play(&rt, &FROM_THE_START)
}

#[test]
fn leaves_out_what_was_not_asked_for(rt: HostRuntime) -> Result<(), Fail> {
    play(&rt, &APPENDED_ALONE)
}

#[test]
fn hands_out_what_is_pending_after_a_stop(rt: HostRuntime) -> Result<(), Fail> {
    play(&rt, &AFTER_A_STOP)
}

#[test]
fn has_room_for_256(rt: HostRuntime) -> Result<(), Fail> {
    let alloc = rt.alloc();
    let mut subs = Subs::new(alloc)?;
    for channel in 0..257 {
        subs.add(from_200(channel, 3, true))?;
    }
    equal(&rt, subs.list().len(), 256);
    for place in 3..259 {
        holds(
            &rt,
            let_in(alloc, &mut subs, place, 255, append(alloc, &[300])?)?,
        );
    }
    holds(
        &rt,
        !let_in(alloc, &mut subs, 259, 255, append(alloc, &[300])?)?,
    );
    equal(&rt, subs.room(), 0);
    check(&rt, alloc, &mut subs, 255, (200, 200), &[300])?;
    equal(&rt, subs.room(), 1);
    Ok(())
}

#[test]
fn stops_past_the_limit(rt: HostRuntime) -> Result<(), Fail> {
    holds(&rt, stop_cause(65_536, 65_536) == None);
    holds(
        &rt,
        stop_cause(65_537, 65_536) == Some(StopCause::Lagged(65_537)),
    );
    holds(
        &rt,
        stop_cause(65_537, 65_536) != Some(StopCause::Unsubscribed),
    );
    Ok(())
}
