//! An input whose points are counted.
ghost use Rattle.std.specs.Prelude.{◌≡◌, ◌<◌, ◌≤◌, ◌==◌, length};
ghost use Rattle.etp_outside.specs.Faults.{Rose};
ghost use Rattle.etp_outside.specs.Source.{IsCount, Reads};
ghost use Rattle.etpctl.specs.Progress.{Tells, count_with, line_feeds, progress_line};

use crate::progress::Progress;
use etp_outside::{ReadOutcome, Sink, Source};
use std::time;

/// A source that gives what another gives, and counts the line feeds. Before it reads on, it reports how many there were: by then whoever
/// reads has asked for more, and has made a point of each of these lines.
#[derive(Drop)]
pub(crate) struct CountedSource<S: Source, T: time::Clock, W: Sink> {
    source: S,
    progress: Progress<T, W>,
}

impl<S: Source, T: time::Clock, W: Sink> CountedSource<S, T, W> {
    pub(crate) fn new(source: S, progress: Progress<T, W>) -> CountedSource<S, T, W>
        ensures { (result.source ≡ source) × (result.progress ≡ progress) }
    {
        CountedSource { source, progress }
    }
}

impl<S: Source, T: time::Clock, W: Sink> Source for CountedSource<S, T, W> {
    ghost left = { λ s. S.left s.source };

    ghost faults = { λ s. S.faults s.source };

    fn read(&mut self, buf: &mut [u8]) -> ReadOutcome
        requires { 0 < length buf.old }
        ensures count { IsCount result (length buf.new) }
        ensures bytes { Reads result buf.new (S.left self.old.source) (S.left self.new.source) }
        ensures kept { S.faults self.old.source ≤ S.faults self.new.source }
        ensures cause { result ≡ ReadOutcome.Failed → Rose (S.faults self.old.source) (S.faults self.new.source) }
        ensures counts { self.new.progress.count ≡ count_with result buf.new self.old.progress.count }
        ensures told { Tells self.old.progress.is_shown (self.new.progress.second == self.old.progress.second) (progress_line self.old.progress.counted self.old.progress.count)
            (W.held self.old.progress.errors) (W.held self.new.progress.errors) (W.faults self.old.progress.errors) (W.faults self.new.progress.errors) }
    {
        self.progress.tell();
        let outcome = self.source.read(buf);
        if let ReadOutcome::Got(count) = outcome {
            self.progress.add(line_feeds(&buf[..count]));
        }
        outcome
    }
}

/// How many line feeds there are among bytes.
fn line_feeds(bytes: &[u8]) -> u64
    ensures { result ≡ line_feeds bytes.now }
{
    let mut count = 0;
    for b in bytes {
        if *b == b'\n' {
            count += 1;
        }
    }
    count
}
