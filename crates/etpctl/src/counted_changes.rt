//! The changes of a channel, counted.
ghost use Rattle.std.specs.Prelude.{◌≡◌, ◌+◌, ◌==◌, []};
ghost use Rattle.etp_values.specs.Weight.{capped};
ghost use Rattle.etpctl.specs.Progress.{Tells, progress_line};
ghost use Rattle.watch_views.specs.Held.{of_numbers};

use crate::progress::Progress;
use channel_store::ChangeMsg;
use etp_outside::Sink;
use etp_values::NoMemory;
use std::alloc::Global;
use std::time;
use watch_views::View;

/// A view that has no lines, and reports how many changes there were as they come.
#[derive(Drop)]
pub(crate) struct CountedChanges<T: time::Clock, W: Sink> {
    progress: Progress<T, W>,
}

impl<T: time::Clock, W: Sink> CountedChanges<T, W> {
    pub(crate) fn new(progress: Progress<T, W>) -> CountedChanges<T, W>
        ensures { result.progress ≡ progress }
    {
        CountedChanges { progress }
    }

    /// One more, which may be reported.
    fn see(&mut self)
        ensures counts { self.new.progress.count ≡ capped (self.old.progress.count + 1) }
        ensures told { Tells self.old.progress.is_shown (self.new.progress.second == self.old.progress.second) (progress_line self.old.progress.counted (capped (self.old.progress.count + 1)))
            (W.held self.old.progress.errors) (W.held self.new.progress.errors) (W.faults self.old.progress.errors) (W.faults self.new.progress.errors) }
    {
        self.progress.add(1);
        self.progress.tell();
    }
}

impl<T: time::Clock + Drop, W: Sink + Drop> View for CountedChanges<T, W> {
    ghost held = { λ v. of_numbers [] };

    ghost step = { λ v h w. h };

    ghost shown = { λ v h. [] };

    fn change(&mut self, _alloc: Global, _change: &ChangeMsg) -> Result<(), NoMemory> {
        self.see();
        Ok(())
    }

    fn lines(&self, _alloc: Global, _into: &mut Vec<u8>) -> Result<(), NoMemory> {
        Ok(())
    }
}
