//! The asks that wait for their answers.
ghost use Rattle.std.specs.Prelude.{◌≡◌, ◌<◌, ◌^◌, ◌++◌, [], not, OnOk};
ghost use Rattle.std.specs.Ordering.{int_eq};
ghost use Rattle.client_core.specs.Answers.{due_at, is_load, is_loaded, without, without_loads};
ghost use Rattle.client_core.specs.Asking.{asked_under};

use crate::state::{Asked, Due};
use etp_values::NoMemory;
use std::alloc::Global;
use std::marker::Model;

/// Asks in the order of their ids. A contract sees the list of them.
#[derive(Drop)]
pub(crate) struct Asks {
    items: Vec<Asked>,
}

impl Model for Asks {
    ghost use Rattle.std.specs.Prelude.{List};
    ghost use Rattle.client_core.specs.declared.state.Asked.{Asked};

    ghost Value = { List Asked };

    ghost view = { λ a. a.items.items };
}

fn due_at(asks: &[Asked], id: i64) -> Option<Due>
    ensures { result ≡ due_at id asks.now }
{
    for asked in asks {
        if asked.id == id {
            return Some(asked.due);
        }
    }
    None
}

fn is_load(due: Due) -> bool
    ensures { result ≡ is_load due }
{
    matches!(due, Due::Load)
}

fn is_loaded(asked: &Asked, id: i64) -> bool
    ensures { result ≡ is_loaded id asked.now }
{
    is_load(asked.due) && asked.id < id
}

impl Asks {
    /// No asks.
    pub(crate) fn new(alloc: Global) -> Asks
        ensures { result ≡ [] }
    {
        Asks {
            items: Vec::new(alloc),
        }
    }

    /// What the ask of this id waits for, if there is one.
    pub(crate) fn due_at(&self, id: i64) -> Option<Due>
        ensures { result ≡ due_at id self.now }
    {
        due_at(self.items.as_slice(), id)
    }

    /// Adds an ask, if it waits for something.
    pub(crate) fn add(&mut self, id: u64, due: Option<Due>) -> Result<(), NoMemory>
        requires { id < 2 ^ 63 }
        ensures { OnOk result (self.new ≡ self.old ++ asked_under id due) }
    {
        let Some(due) = due else {
            return Ok(());
        };
        self.items.push(Asked { id: id as i64, due })?;
        Ok(())
    }

    /// Takes the ask of this id out.
    pub(crate) fn remove(&mut self, id: i64)
        ensures { self.new ≡ without id self.old }
    {
        retain_others(&mut self.items, id);
    }

    /// Takes out the loads that were asked before the Ping of this id.
    pub(crate) fn remove_loads(&mut self, id: i64)
        ensures { self.new ≡ without_loads id self.old }
    {
        retain_unloaded(&mut self.items, id);
    }
}

fn retain_others(asks: &mut Vec<Asked>, id: i64)
    ensures { asks.new.items ≡ without id asks.old.items }
{
    asks.retain(
        |asked: &Asked| -> bool
            ensures { result ≡ not (int_eq asked.now.id id) }
        { asked.id != id },
    );
}

fn retain_unloaded(asks: &mut Vec<Asked>, id: i64)
    ensures { asks.new.items ≡ without_loads id asks.old.items }
{
    asks.retain(
        |asked: &Asked| -> bool
            ensures { result ≡ not (is_loaded id asked.now) }
        { !is_loaded(asked, id) },
    );
}
