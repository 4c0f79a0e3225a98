//! Whether a channel or an object is active.
use crate::leaves::read_symbol;
use crate::measure::Measure;
use crate::on_wire::OnWire;
use crate::reader::Reader;
use crate::typed::Typed;
use avro_bin::Fault;
use avro_bin::numbers::put_number;
use etp_values::{Copied, NoMemory};
use std::alloc::Global;

/// Whether what a record describes is in use.
#[derive(Clone, Copy, Debug, PartialEq, Eq, Drop)]
pub enum ActiveStatusKind {
    Active,
    Inactive,
}

impl Typed for ActiveStatusKind {
    ghost use Rattle.etp_schema.specs.Status.{active_status_kind_form};

    ghost form = { active_status_kind_form };
}

impl OnWire for ActiveStatusKind {
    fn read(from: &mut Reader<'_>) -> Result<ActiveStatusKind, Fault> {
        read_symbol(
            from,
            &[ActiveStatusKind::Active, ActiveStatusKind::Inactive],
            ActiveStatusKind::Inactive,
        )
    }

    #[tactic(auto, unfolding(crate::specs::Form::Holds))]
    fn write(&self, into: &mut Vec<u8>) -> Result<(), NoMemory> {
        match self {
            ActiveStatusKind::Active => put_number(into, 0),
            ActiveStatusKind::Inactive => put_number(into, 1),
        }
    }

    fn measure(&self) -> Measure {
        match self {
            ActiveStatusKind::Active => Measure::of_number(0),
            ActiveStatusKind::Inactive => Measure::of_number(1),
        }
    }
}

impl Copied for ActiveStatusKind {
    fn copy(&self, _alloc: Global) -> Result<ActiveStatusKind, NoMemory> {
        Ok(*self)
    }
}
