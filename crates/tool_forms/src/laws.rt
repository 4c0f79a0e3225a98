//! The laws of the tool. Each is the contract of an empty function, so that it is proved with the crate.
ghost use Rattle.server_config.specs.declared.config.Config.{Config};
ghost use Rattle.capture_run.specs.Laws.{StopsOnce};
ghost use Rattle.tool_forms.specs.Replay.{replay_plan};
ghost use Rattle.capture_listing.specs.Listing.{show_plan, check_plan};
ghost use Rattle.tool_forms.specs.TagRuns.{PlayIsRuns};

use capture_run::run_stops_once;
use session_core::{runs, steps};
use store_machine::{growth_laws, number_laws};

/// An input makes a run of a form stop in at most one way, after one list of frames.
pub fn input_has_one_answer()
    ensures replay { (config : Config) → StopsOnce (replay_plan config) }
    ensures show { StopsOnce show_plan }
    ensures check { StopsOnce check_plan }
{
    run_stops_once();
}

/// What a play writes for a tag is the run of the tag's session over the journal that the play leaves, which is legal: the run's calls are
/// at the lengths of the journal at which the play asked the store, which never fall; its messages and its end are those of the frames that
/// answer the tag; and its entries are all that the journal has of the session.
pub fn tags_are_runs()
    ensures { PlayIsRuns }
{
    runs();
    steps();
    number_laws();
    growth_laws();
}
