//! Dials servers over the loopback, and prints what came of each.
//!
//! The servers are sockets that answer with literal bytes (`answers`), and one is our own door. The requests, keys and frames are those of
//! RFC 6455, sections 1.3, 4.1 and 5.3. The system picks each port, and what is printed does not depend on which, nor on whether the
//! machine has an IPv6 address.
#![tactic(auto)]

mod answers;
mod cases;
mod client;
mod network;
mod own_door;
mod printing;
mod server;

use cases::{print_bracketed, print_refused, print_taken, print_unanswered};
use network::SampleNet;
use own_door::print_own_door;
use std::io;

fn main(rt: HostRuntime) -> io::Result<()> {
    let net = SampleNet::new(&rt);
    print_taken(&rt, &net)?;
    print_refused(&rt, &net)?;
    print_unanswered(&rt)?;
    print_bracketed(&rt, &net)?;
    print_own_door(&rt)
}
