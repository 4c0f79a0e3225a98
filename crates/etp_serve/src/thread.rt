//! A session in a thread of its own.
ghost use Rattle.std.specs.Prelude.{◌≡◌, [], IfSome, true, false};
ghost use Rattle.etp_outside.specs.Moments.{Tests};
ghost use Rattle.store_hub.specs.Passes.{IsFresh, IsPassOf, config_of, known};
ghost use Rattle.etp_serve.specs.Accepted.{IsDone};

use crate::children::end_number_of;
use crate::ended::Ended;
use crate::endings::Endings;
use crate::serving::serve_session;
use etp_outside::{Clock, Gate, Link};
use server_config::Config;
use std::alloc::Global;
use std::snapshot::Snapshot;
use std::sync::Wait;
use std::thread::Promise;
use store_hub::{Hub, Pass};

/// What a session's thread returns: its link and its pass, and how it ended.
#[derive(Drop)]
pub(crate) struct Finished<L> {
    pub(crate) link: L,
    pub(crate) pass: Pass,
    pub(crate) end: Ended,
}

/// What a session's thread was given.
#[derive(Drop)]
pub(crate) struct Started<L, C> {
    pub(crate) hub: Snapshot<Hub>,
    pub(crate) clock: Snapshot<C>,
    pub(crate) link: Snapshot<L>,
    pub(crate) number: u64,
}

impl<L: Link, C: Clock> Started<L, C> {
    /// What a thread is given that serves the session of this pass over this link.
    pub(crate) fn of(hub: &Hub, clock: &C, link: &L, pass: &Pass) -> Started<L, C>
        ensures hub { result.hub.value ≡ hub.now }
        ensures clock { result.clock.value ≡ clock.now }
        ensures link { result.link.value ≡ link.now }
        ensures number { result.number ≡ pass.now.number }
    {
        Started {
            hub: Snapshot::of(hub),
            clock: Snapshot::of(clock),
            link: Snapshot::of(link),
            number: pass.number(),
        }
    }
}

impl<L: Link, C: Clock> Promise<Finished<L>> for Started<L, C> {
    ghost use Rattle.std.specs.Prelude.{◌≡◌, true};
    ghost use Rattle.store_hub.specs.Passes.{IsPassOf, config_of, known};
    ghost use Rattle.etp_serve.specs.Accepted.{IsDone};

    ghost kept_by = { λ p r. IsPassOf p.hub.value r.pass × (r.pass.number ≡ p.number)
        × IsDone (C.passes p.clock.value) (config_of p.hub.value) p.number (known r.pass) r.end
        (L.talk p.link.value) (L.talk r.link) (L.faults p.link.value) (L.faults r.link) (L.ended r.link)
        × (L.closed r.link ≡ true) };
}

/// For proofs only: the moments that a clock returned pass its test.
fn moments_pass<C: Clock>(clock: &C)
    ensures { Tests (C.told clock.now) (C.passes clock.now) }
{
    let _ = clock;
}

/// Serves a session that was just let in until it ends, tells its link so and closes it, and notes among the endings that it has ended.
pub(crate) fn serve_one<L: Link, C: Clock, G: Gate, R: Wait>(
    rt: &R,
    alloc: Global,
    link: L,
    hub: &Hub,
    pass: Pass,
    clock: C,
    gate: &G,
    conf: &Config,
    endings: &Endings,
    bit: u64,
) -> Finished<L>
    requires own { IsPassOf hub.now pass }
    requires conf { conf.now ≡ config_of hub.now }
    requires fresh { IsFresh pass }
    requires alone { (known pass).met ≡ [] }
    requires anew { IfSome (C.told clock) (λ moments. moments ≡ []) }
    requires usable { L.closed link ≡ false }
    ensures closed { L.closed result.link ≡ true }
    ensures own { IsPassOf hub.now result.pass × (result.pass.number ≡ pass.number) }
    ensures done { IsDone (C.passes clock) (config_of hub.now) pass.number (known result.pass) result.end
        (L.talk link) (L.talk result.link) (L.faults link) (L.faults result.link) (L.ended result.link) }
{
    let mut link = link;
    let mut pass = pass;
    let mut clock = clock;
    moments_pass(&clock);
    let end = serve_session(rt, alloc, &mut link, hub, &mut pass, &mut clock, gate, conf);
    moments_pass(&clock);
    link.leave(pass.number(), end_number_of(end));
    link.close();
    endings.note(bit);
    Finished { link, pass, end }
}
