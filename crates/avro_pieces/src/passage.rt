//! A value that comes in pieces.
ghost use Rattle.std.specs.Prelude.{◌≡◌, ◌<◌, ◌-◌, ℕ, List, length, IfOk, IfErr};
ghost use Rattle.avro_bin.specs.Schema.{schema, IsTable};
ghost use Rattle.avro_bin.specs.declared.schema.Node.{Node};
ghost use Rattle.avro_bin.specs.Laws.{read_value, node_limit};
ghost use Rattle.avro_pieces.specs.Passage.{StandsAt, StandsLonger, Passes, PassRefuses};

use crate::going::{Going, run};
use crate::level::Level;
use avro_bin::{Fault, NODE_LIMIT, Refusal, Table, refusal_at};
use etp_values::NoMemory;
use std::alloc::Global;

/// How far a value has been passed.
#[derive(Drop)]
pub struct Passage {
    id: u32,
    levels: Vec<Level>,
    allowed: u32,
    at: usize,
}

/// What a passage says about the bytes that have come.
#[derive(Clone, Copy, Debug, PartialEq, Eq)]
pub enum Passed {
    /// The value does not end in them.
    More,
    /// The value ends after this number of bytes.
    Whole(usize),
}

/// What is still to come of the value, and how many bytes have been passed.
fn stand(id: u32, bytes: &[u8], going: Going) -> (Passage, usize)
    ensures at { result.1 ≡ length bytes.now - length going.entry.rest.now }
    ensures same { (result.0.id ≡ id) × (result.0.levels ≡ going.entry.levels) × (result.0.allowed ≡ going.entry.allowed) × (result.0.at ≡ result.1) }
{
    let Going {
        levels,
        allowed,
        rest,
    } = going;
    let at = bytes.len().saturating_sub(rest.len());
    let passage = Passage {
        id,
        levels,
        allowed,
        at,
    };
    (passage, at)
}

impl Passage {
    /// A passage at the start of a value of the node at this place of a table.
    pub fn new(alloc: Global, id: u32) -> Result<Passage, NoMemory>
        ensures place { IfOk result (λ p. p.id ≡ id) }
        ensures stands { IfOk result (λ p. (nodes : List Node) → id < length nodes → (bytes : List ℕ) → StandsAt nodes bytes p) }
    {
        let mut levels = Vec::new(alloc);
        levels.push(Level::Node(id))?;
        Ok(Passage {
            id,
            levels,
            allowed: NODE_LIMIT,
            at: 0,
        })
    }

    /// Continues as far as the bytes reach. They are all bytes so far, beginning with those of earlier calls. The answer is what reading
    /// the value from them would say. A refusal is final: it stays the same whatever bytes follow.
    pub fn go_on(
        self,
        alloc: Global,
        table: &Table,
        bytes: &[u8],
    ) -> Result<(Passage, Passed), Refusal>
        requires table { IsTable table.now.nodes.now }
        requires stands { StandsAt table.now.nodes.now bytes.now self }
        ensures passes { IfOk result (λ x. Passes (read_value (schema table.now.nodes.now self.id) node_limit bytes.now) x.1) }
        ensures stands { IfOk result (λ x. StandsAt table.now.nodes.now bytes.now x.0) }
        ensures same { IfOk result (λ x. x.0.id ≡ self.id) }
        ensures refuses { IfErr result (PassRefuses (read_value (schema table.now.nodes.now self.id) node_limit bytes.now)) }
    {
        let Passage {
            id,
            levels,
            allowed,
            at,
        } = self;
        let (_, rest) = bytes.split_at(at);
        let going = Going {
            levels,
            allowed,
            rest,
        };
        match run(alloc, table, id, bytes, going) {
            Ok((going, true)) => {
                let (passage, len) = stand(id, bytes, going);
                Ok((passage, Passed::Whole(len)))
            }
            Ok((going, false)) => {
                let (passage, _) = stand(id, bytes, going);
                Ok((passage, Passed::More))
            }
            Err(Fault::At(why, left)) => Err(refusal_at(why, bytes.len().saturating_sub(left))),
            Err(Fault::Memory) => Err(Refusal::NoMemory),
        }
    }
}

/// For proofs only: a passage is still where it was when more bytes follow those that it was given.
pub fn stands_longer()
    ensures { StandsLonger }
{}
