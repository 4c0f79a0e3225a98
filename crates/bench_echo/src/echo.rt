//! Links over which everything is sent back.
ghost use Rattle.std.specs.Prelude.{◌≡◌, false};

use etp_outside::{Link, Listener, Next, Recv, Sent};
use std::alloc::Global;
use std::sync::Wait;
use std::thread;
use std::thread::Threads;

/// Takes this many links from a listener, or fewer if it fails, and sends back what comes over them, each link in a thread of its own. It
/// waits until all have ended. A link for which no thread can be started is dropped.
pub fn echo_links<A: Listener, R: Threads + Wait + Sync>(
    rt: &R,
    alloc: Global,
    door: &mut A,
    links: u64,
) {
    thread::scope(thread::scope_env(), rt, move |scope| {
        for _ in 0..links {
            let Next::Link(link) = door.next(alloc) else {
                return;
            };
            let work = move ||
                requires usable { A.Link.closed link ≡ false }
            { echo(rt, alloc, link) };
            let _ = scope.spawn(work);
        }
    });
}

/// Sends each message of a link back over it, until the peer has ended it or it fails.
fn echo<L: Link, R: Wait>(rt: &R, alloc: Global, link: L)
    requires usable { L.closed link ≡ false }
{
    let mut link = link;
    for _ in rt.forever() {
        match link.recv(alloc) {
            Recv::Got(message) => match link.send(alloc, &message) {
                Sent::Done => {}
                Sent::Failed | Sent::NoMemory => break,
            },
            Recv::Idle => {}
            Recv::End | Recv::Failed | Recv::NoMemory => break,
        }
    }
    link.close();
}
