//! What is shown of a channel that is watched.
ghost use Rattle.std.specs.Prelude.{◌≡◌, ◌++◌, ℕ, List, OnErr, OnOk};
ghost use Rattle.channel_store.specs.declared.change.What.{What};
ghost use Rattle.watch_views.specs.Held.{Held};

use channel_store::ChangeMsg;
use etp_values::NoMemory;
use std::alloc::Global;

/// A view of one channel.
pub trait View: Drop {
    /// The points and the numbers that it keeps.
    ghost held: { Self → Held };

    /// What it keeps after a change, if it kept this.
    ghost step: { Self → Held → What → Held };

    /// The lines of what it keeps.
    ghost shown: { Self → Held → List ℕ };

    /// Takes in a change of the channel. If memory runs out, the view keeps what it kept.
    fn change(&mut self, alloc: Global, change: &ChangeMsg) -> Result<(), NoMemory>
        ensures ok { OnOk result (held self.new ≡ step self.old (held self.old) change.now.what) }
        ensures err { OnErr result (held self.new ≡ held self.old) }
        ensures steps { (h : Held) (w : What) → step self.new h w ≡ step self.old h w }
        ensures shows { (h : Held) → shown self.new h ≡ shown self.old h };

    /// Appends the lines. If memory runs out, nothing is appended.
    fn lines(&self, alloc: Global, into: &mut Vec<u8>) -> Result<(), NoMemory>
        ensures ok { OnOk result (into.new.items ≡ into.old.items ++ shown self.now (held self.now)) }
        ensures err { OnErr result (into.new.items ≡ into.old.items) };
}
