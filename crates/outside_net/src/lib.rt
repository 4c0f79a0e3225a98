//! Links, a listener and a dialer over the system's sockets: WebSocket (RFC 6455) over TCP.
//!
//! [`WsLink`] is a [`Link`](etp_outside::Link) over a WebSocket, [`TcpDoor`] a [`Listener`](etp_outside::Listener) that does a server's
//! handshake with each connection that it accepts, and [`TcpDial`] a [`Dialer`](etp_outside::Dialer) that does a client's with each
//! connection that it makes. They are part of the trusted edge: no clause says what a socket gives and takes. What is proved of them is
//! what every link, listener and dialer owes, which requests are answered, and what is handed on for each thing that is found in the bytes.
//! What is found is the work of `web_frames`, which has no socket.
#![tactic(auto)]

mod bells;
mod caller;
mod dial;
mod door;
mod hall;
mod handshake;
mod head;
mod head_only;
mod link;
mod log;
mod pace;
mod refusal;
mod room;
mod silence;
mod writing;

pub use dial::{ClientLink, TcpDial};
pub use door::{ServerLink, TcpDoor};
pub use handshake::SUBPROTOCOL;
pub use link::WsLink;
pub use log::{DoorLog, NoLog};
pub use refusal::Refusal;
