//! The forms of data values and arrays of any kind.
use crate::typed::Typed;
use etp_values::{AnyArray, AnySubarray, DataValue};

impl Typed for AnyArray {
    ghost use Rattle.etp_schema.specs.AnyArray.{any_array_form};

    ghost form = { any_array_form };
}

impl Typed for AnySubarray {
    ghost use Rattle.etp_schema.specs.AnyArray.{any_subarray_form};

    ghost form = { any_subarray_form };
}

impl Typed for DataValue {
    ghost use Rattle.etp_schema.specs.DataValue.{data_value_form};

    ghost form = { data_value_form };
}
