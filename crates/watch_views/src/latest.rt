//! The last point.
ghost use Rattle.std.specs.Prelude.{◌≡◌, ◌++◌, [], OnErr, OnOk};
ghost use Rattle.std.specs.Option.{option_to_list};
ghost use Rattle.circular_buffer.specs.Buffer.{keep_last};
ghost use Rattle.avro_bin.specs.Plain.{Writes};
ghost use Rattle.watch_views.specs.Held.{left_by, of_points, window_step};
ghost use Rattle.watch_views.specs.Lines.{latest_line, latest_of};

use crate::lines::{put, whole_or_nothing};
use crate::view::View;
use crate::window::stays;
use capture_text::put_point;
use channel_points::Points;
use channel_store::{ChangeMsg, What};
use etp_values::{NoMemory, Point};
use std::alloc::Global;

/// Keeps the last point that was appended, until a replacement or a truncation drops it. Its line is `latest INDEX VALUE`, or `latest
/// none`.
#[derive(Debug, Drop)]
pub struct Latest {
    point: Option<Point>,
}

impl Latest {
    /// The view of a channel before any change was received.
    pub fn new() -> Latest
        ensures { option_to_list result.point ≡ [] }
    {
        Latest { point: None }
    }

    /// Keeps the last of these points, if there are any.
    #[tactic(auto, using(crate::proofs::PointLemmas::one_none, crate::proofs::PointLemmas::one_some))]
    fn append(&mut self, alloc: Global, points: &Points) -> Result<(), NoMemory>
        ensures ok { OnOk result (option_to_list self.new.point ≡ keep_last 1 (option_to_list self.old.point ++ points.now)) }
        ensures err { OnErr result (self.new ≡ self.old) }
    {
        if points.is_empty() {
            return Ok(());
        }
        self.point = Some(points.copy_at(alloc, points.len() - 1)?);
        Ok(())
    }

    /// Drops the point if a change drops it.
    fn leave(&mut self, what: &What)
        ensures { option_to_list self.new.point ≡ left_by what.now (option_to_list self.old.point) }
    {
        let Some(point) = &self.point else {
            return;
        };
        if !stays(what, point.index) {
            self.point = None;
        }
    }

    #[tactic(auto, using(capture_text::proofs::WritingLemmas::writes_after))]
    fn write(&self, alloc: Global, into: &mut Vec<u8>) -> Result<(), NoMemory>
        ensures { Writes (latest_line (option_to_list self.now.point)) into.old.items into.new.items result }
    {
        let Some(point) = &self.point else {
            return put(into, b"latest none\n");
        };
        put(into, b"latest ")?;
        put_point(alloc, point, into)
    }
}

impl View for Latest {
    ghost held = { λ v. of_points (option_to_list v.point) };

    ghost step = { λ v. window_step 1 };

    ghost shown = { λ v. latest_of };

    fn change(&mut self, alloc: Global, change: &ChangeMsg) -> Result<(), NoMemory> {
        if let What::Append(points) = &change.what {
            return self.append(alloc, points);
        }
        self.leave(&change.what);
        Ok(())
    }

    #[tactic(auto, using(crate::proofs::TextLemmas::whole_ok, crate::proofs::TextLemmas::whole_err))]
    fn lines(&self, alloc: Global, into: &mut Vec<u8>) -> Result<(), NoMemory> {
        let len = into.len();
        let written = self.write(alloc, into);
        whole_or_nothing(into, len, written)
    }
}
