//! The law of runs, as the contract of an empty function, so that it is proved with the crate.
ghost use Rattle.capture_run.specs.Form.{Plan};
ghost use Rattle.capture_run.specs.Laws.{IsForward, StopsOnce};

/// An input makes a run stop in at most one way, after one list of frames.
pub fn run_stops_once()
    ensures { (plan : Plan) → IsForward plan → StopsOnce plan }
{}
