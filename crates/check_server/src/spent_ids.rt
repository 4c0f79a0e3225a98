//! Sessions that have few ids left. None of their messages asks the store. A session that has ended reports it after each message.
use etp_values::{Id16, List, NoMemory, Shared, Text};
use server_config::{Config, MAX_JOURNAL, MAX_LAG};
use session_core::Session;
use std::alloc::{AllocError, Global};
use std::io;

/// The greatest message id.
const MAX_ID: i64 = 4_611_686_018_427_387_904;

fn configuration(alloc: Global) -> Result<Config, NoMemory> {
    let mut instance = [0; 16];
    instance[15] = 1;
    Ok(Config {
        instance: Id16::from_bytes(instance),
        name: Text::copy(alloc, "wd")?,
        lag: MAX_LAG,
        journal: MAX_JOURNAL,
        types: None,
        channels: Shared::new(alloc, List::new(alloc))?,
    })
}

/// A session whose own ids begin with `first`, if they may.
fn new_session(alloc: Global, first: i64) -> Result<Option<Session>, NoMemory> {
    if first < 1 || first > MAX_ID || first % 2 != 1 {
        return Ok(None);
    }
    let session = Session::new(alloc, configuration(alloc)?, 1, first)?;
    Ok(Some(session))
}

/// Gives a message to the session; true if the session asks the store.
fn asks(alloc: Global, session: &mut Session, digits: &str) -> io::Result<bool> {
    let bytes = hex::decode(alloc, digits).map_err(|_| AllocError)?;
    let call = session
        .take(alloc, bytes.as_slice(), 1)
        .map_err(|_| AllocError)?;
    Ok(call.is_some())
}

fn print_sent<R: AllocGlobal + Print>(rt: &R, session: &mut Session) -> io::Result<()> {
    for _ in 0..u64::MAX {
        match session.next_out(rt.alloc()).map_err(|_| AllocError)? {
            Some(bytes) => {
                let digits = hex::encode_upper(rt.alloc(), bytes.as_bytes())?;
                println!(rt; "{digits}")?;
            }
            None => break,
        }
    }
    if let Some(end) = session.ended() {
        println!(rt; "ended {end:?}")?;
    }
    Ok(())
}

/// Plays the messages to a session.
fn play<R: AllocGlobal + Print>(
    rt: &R,
    session: &mut Session,
    messages: &[&str],
) -> io::Result<()> {
    for digits in messages {
        if asks(rt.alloc(), session, digits)? {
            println!(rt; "asks the store")?;
        }
        print_sent(rt, session)?;
    }
    Ok(())
}

/// Plays messages to a session whose own ids begin with `first`.
pub(crate) fn play_from<R: AllocGlobal + Print>(
    rt: &R,
    first: &str,
    messages: &[&str],
) -> io::Result<()> {
    let first = first.parse::<i64>().unwrap_or(0);
    match new_session(rt.alloc(), first).map_err(|_| AllocError)? {
        Some(mut session) => play(rt, &mut session, messages),
        None => println!(rt; "no session"),
    }
}
