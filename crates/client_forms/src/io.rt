//! What a command works on outside.
use etp_outside::{Clock, Link, Sink, Source};
use std::marker::Model;

/// All that a command works on. Contracts see what it reveals. Its link is open.
#[derive(Drop)]
pub(crate) struct Io<L: Link, C: Clock, W: Sink, R: Source> {
    pub(crate) link: L,
    pub(crate) clock: C,
    pub(crate) out: W,
    pub(crate) from: R,
}

impl<L: Link, C: Clock, W: Sink, R: Source> Model for Io<L, C, W, R> {
    ghost use Rattle.client_forms.specs.Work.{Outside, input, line, output, outside};

    ghost Value = { Outside };

    ghost view = { λ a. outside (line (L.talk a.link) (L.faults a.link) (L.ended a.link)) (C.told a.clock) (output (W.held a.out) (W.faults a.out)) (input (R.left a.from) (R.faults a.from)) };

    ghost use Rattle.std.specs.Prelude.{◌≡◌, false};

    ghost invariant = { λ a. L.closed a.link ≡ false };
}

/// What the client reads, what it writes to, and what tells it the time. Whoever runs it hands them over and gets them back.
#[derive(Drop)]
pub struct Streams<R, W, C> {
    pub input: R,
    pub out: W,
    pub clock: C,
}
