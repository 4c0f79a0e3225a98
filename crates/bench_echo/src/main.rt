//! Sends back what comes over WebSockets: the plain echo against which the server is measured.
//!
//! `bench_echo ADDRESS LINKS` listens at ADDRESS with the server's own door, writes its port to standard error, takes that many links, and
//! sends every message of each back. It ends once all have ended.
#![tactic(auto)]

mod echo;

use echo::echo_links;
use etp_outside::{Listened, Listener};
use outside_net::TcpDoor;
use std::env;
use std::process::ExitCode;

/// The status if the command line is malformed.
const USAGE: u8 = 1;

/// The status if the door can't listen.
const LISTEN_FAULT: u8 = 7;

/// The address and the number of links that the words name.
fn wanted(rt: &HostRuntime) -> Option<(String, u64)> {
    let Ok(mut words) = env::args(rt) else {
        return None;
    };
    let _program = words.next();
    let address = words.next()?;
    let links = words.next()?;
    match links.as_str().parse::<u64>() {
        Ok(links) => Some((address, links)),
        Err(_) => None,
    }
}

fn main(rt: HostRuntime) -> ExitCode {
    let Some((address, links)) = wanted(&rt) else {
        let _ = eprintln!(&rt; "bench_echo ADDRESS LINKS");
        return ExitCode::from(USAGE);
    };
    let mut door = TcpDoor::new(&rt);
    match door.listen(address.as_str()) {
        Listened::Done => {}
        Listened::Failed => {
            let _ = eprintln!(&rt; "can't listen at {address}");
            return ExitCode::from(LISTEN_FAULT);
        }
    }
    if let Some(port) = door.port() {
        let _ = eprintln!(&rt; "listening at port {port}");
    }
    echo_links(&rt, rt.alloc(), &mut door, links);
    ExitCode::SUCCESS
}
