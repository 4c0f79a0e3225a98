//! One event of a session: its call to the store, and what it sends.
ghost use Rattle.std.specs.Prelude.{◌≡◌, ◌≤◌, IfNone, IfSome, OnErr, OnOk, Some, None, false};
ghost use Rattle.etp_outside.specs.Faults.{Rose};
ghost use Rattle.session_core.specs.Session.{end_of};
ghost use Rattle.store_machine.specs.Laws.{IsCallAt};
ghost use Rattle.store_hub.specs.Passes.{IsPassOf, config_of, known};
ghost use Rattle.etp_serve.specs.Steps.{Breaks, Does, Drains, Settles, Stops};

use crate::ended::{Ended, own_end};
use etp_outside::{Link, Sent};
use etp_values::NoMemory;
use session_core::Session;
use std::alloc::Global;
use std::sync::Wait;
use store_hub::{Hub, Pass};
use store_machine::StoreCall;

/// What an event asks of the store: the session's call, if it has one, and the moment of the event, which its entry has.
#[derive(Drop)]
pub(crate) struct Asked {
    pub(crate) at: i64,
    pub(crate) call: Option<StoreCall>,
}

/// Has the store answer the session's call.
fn ask_store<R: Wait>(
    rt: &R,
    alloc: Global,
    hub: &Hub,
    pass: &mut Pass,
    session: &mut Session,
    asked: Asked,
) -> Result<(), NoMemory>
    requires own { IsPassOf hub.now pass.old }
    requires call { IfSome asked.call (IsCallAt (known pass.old).seen) }
    ensures own { IsPassOf hub.now pass.new × (pass.new.number ≡ pass.old.number) }
    ensures met { (known pass.new).met ≡ (known pass.old).met }
    ensures ok { OnOk result (Settles (config_of hub.now) pass.old.number pass.old.entries asked.at asked.call
        (known pass.old) (known pass.new) session.old session.new) }
    ensures err { OnErr result (Breaks (config_of hub.now) pass.old.number pass.old.entries asked.at asked.call
        (known pass.old) (known pass.new)) }
{
    let Asked { at, call } = asked;
    let Some(call) = call else {
        return Ok(());
    };
    match hub.ask(rt, alloc, pass, at, call) {
        Ok(answer) => session.give(alloc, answer),
        Err(refused) => Err(refused),
    }
}

/// Sends what the session has to send.
fn drain<L: Link>(alloc: Global, link: &mut L, session: &mut Session) -> Sent
    requires usable { L.closed link.old ≡ false }
    ensures usable { L.closed link.new ≡ false }
    ensures talk { Drains result session.old session.new (L.talk link.old) (L.talk link.new) }
    ensures kept { L.faults link.old ≤ L.faults link.new }
    ensures cause { result ≡ Sent.Failed → Rose (L.faults link.old) (L.faults link.new) }
    ensures ended { L.ended link.new ≡ L.ended link.old }
{
    loop {
        match session.next_out(alloc) {
            Ok(Some(message)) => match link.send(alloc, &message) {
                Sent::Done => {}
                Sent::Failed => return Sent::Failed,
                Sent::NoMemory => return Sent::NoMemory,
            },
            Ok(None) => return Sent::Done,
            Err(_) => return Sent::NoMemory,
        }
    }
}

/// Has the store answer the call of an event, and sends what the session has to send. `None` if the session continues.
pub(crate) fn carry_out<L: Link, R: Wait>(
    rt: &R,
    alloc: Global,
    link: &mut L,
    hub: &Hub,
    pass: &mut Pass,
    session: &mut Session,
    asked: Asked,
) -> Option<Ended>
    requires own { IsPassOf hub.now pass.old }
    requires call { IfSome asked.call (IsCallAt (known pass.old).seen) }
    requires usable { L.closed link.old ≡ false }
    ensures usable { L.closed link.new ≡ false }
    ensures own { IsPassOf hub.now pass.new × (pass.new.number ≡ pass.old.number) }
    ensures met { (known pass.new).met ≡ (known pass.old).met }
    ensures does { IfNone result (Does (config_of hub.now) pass.old.number pass.old.entries asked
        (known pass.old) (known pass.new) session.old session.new (L.talk link.old) (L.talk link.new)) }
    ensures goes { IfNone result (end_of session.new.phase ≡ None) }
    ensures stops { IfSome result (λ end. Stops (config_of hub.now) pass.old.number pass.old.entries asked
        (known pass.old) (known pass.new) session.old (L.talk link.old) (L.talk link.new) end) }
    ensures kept { L.faults link.old ≤ L.faults link.new }
    ensures cause { result ≡ Some Ended.LinkFault → Rose (L.faults link.old) (L.faults link.new) }
    ensures peer { result ≡ Some Ended.PeerEnd → ⊥ }
    ensures ended { L.ended link.new ≡ L.ended link.old }
{
    match ask_store(rt, alloc, hub, pass, session, asked) {
        Ok(()) => {}
        Err(_) => return Some(Ended::NoMemory),
    }
    match drain(alloc, link, session) {
        Sent::Done => own_end(session),
        Sent::Failed => Some(Ended::LinkFault),
        Sent::NoMemory => Some(Ended::NoMemory),
    }
}
