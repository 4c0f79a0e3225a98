//! The client on the command line: `etpctl ping URL`, `etpctl put URL URI FILE` and the other forms of `client_words`.
//! `client_forms` does the work and says what each does. A channel that is watched is shown by its last point, its last ten points, and
//! counts.
//!
//! If standard error is a terminal, [`Progress`] reports there how many points `load` has read and how many changes `watch` has seen, about
//! once a second. It counts in the input that the run is given ([`CountedSource`]) and in an additional view that has no lines
//! ([`CountedChanges`]), so that neither what is written nor how the run ends depends on it.
#![tactic(auto)]

mod counted_changes;
mod counted_source;
mod progress;
mod run;

use client_forms::finish;
use counted_changes::CountedChanges;
use etp_outside::{Status, StdSink};
use etp_values::NoMemory;
use progress::{Counted, Progress};
use run::run_words;
use std::alloc::Global;
use std::io::IsTerminal;
use std::process::ExitCode;
use watch_views::{Counts, Latest, View, Window};

/// How many points the window shows.
const WINDOW_LEN: u64 = 10;

fn main(rt: HostRuntime) -> ExitCode {
    let alloc = rt.alloc();
    let Ok((latest, window, counts)) = parts(alloc) else {
        return finish(alloc, Status::NoMemory, &mut StdSink::new(rt.stderr()));
    };
    let mut views: Vec<Box<dyn View>> = Vec::new(alloc);
    if views.push(latest).is_err() || views.push(window).is_err() || views.push(counts).is_err() {
        return finish(alloc, Status::NoMemory, &mut StdSink::new(rt.stderr()));
    }
    let is_shown = rt.stderr().is_terminal();
    if is_shown {
        let changes = Progress::new(Counted::Changes, is_shown, rt, StdSink::new(rt.stderr()));
        // If memory runs out for it the run continues, and nothing is reported.
        if let Ok(view) = Box::new(alloc, CountedChanges::new(changes)) {
            let _ = views.push(view);
        }
    }
    let points = Progress::new(Counted::Points, is_shown, rt, StdSink::new(rt.stderr()));
    let status = run_words(&rt, views, points);
    finish(alloc, status, &mut StdSink::new(rt.stderr()))
}

/// What shows a channel.
type Parts = (Box<Latest>, Box<Window>, Box<Counts>);

fn parts(alloc: Global) -> Result<Parts, NoMemory> {
    let latest = Box::new(alloc, Latest::new())?;
    let window = Box::new(alloc, Window::new(alloc, WINDOW_LEN)?)?;
    let counts = Box::new(alloc, Counts::new())?;
    Ok((latest, window, counts))
}
