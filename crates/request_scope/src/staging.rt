//! A transaction's operations over what the store has.
ghost use Rattle.std.specs.Prelude.{◌≡◌, ◌≢◌, IfOk, OnOk};
ghost use Rattle.std.specs.Option.{option_map};
ghost use Rattle.request_scope.specs.Scope.{code_of, put_code, put_left};
ghost use Rattle.tx_stage.specs.Values.{as_array, as_object};
ghost use Rattle.tx_stage.specs.declared.value.Value.TheVariants as value;

use array_store::ArrayRecord;
use etp_values::{ErrorCode, NoMemory};
use object_store::ObjectRecord;
use tx_stage::{Op, Stage, StageError, Value};

/// An object as a value.
pub(crate) fn value_of_object(object: Option<ObjectRecord>) -> Option<Value>
    ensures { result ≡ option_map value.Object object }
{
    match object {
        Some(object) => Some(Value::Object(object)),
        None => None,
    }
}

/// An array as a value.
pub(crate) fn value_of_array(array: Option<ArrayRecord>) -> Option<Value>
    ensures { result ≡ option_map value.Array array }
{
    match array {
        Some(array) => Some(Value::Array(array)),
        None => None,
    }
}

/// The object that a value is.
pub(crate) fn object_in(value: Option<Value>) -> Option<ObjectRecord>
    ensures { result ≡ as_object value }
{
    match value {
        Some(Value::Object(object)) => Some(object),
        Some(Value::Space(_)) => None,
        Some(Value::Array(_)) => None,
        None => None,
    }
}

/// The array that a value is.
pub(crate) fn array_in(value: Option<Value>) -> Option<ArrayRecord>
    ensures { result ≡ as_array value }
{
    match value {
        Some(Value::Array(array)) => Some(array),
        Some(Value::Space(_)) => None,
        Some(Value::Object(_)) => None,
        None => None,
    }
}

/// Stages an operation, or returns why it is refused.
pub(crate) fn put_in(stage: &mut Stage, op: Op) -> Result<Option<ErrorCode>, NoMemory>
    ensures refusal { IfOk result (λ code. code ≡ put_code stage.old op) }
    ensures state { OnOk result (stage.new ≡ put_left stage.old op) }
{
    match stage.put(op) {
        Ok(()) => Ok(None),
        Err(error) => {
            let code = refusal_code(error)?;
            Ok(Some(code))
        }
    }
}

/// The code with which a transaction's refusal of a key or an operation is answered; running out of memory is not one.
pub fn refusal_code(error: StageError) -> Result<ErrorCode, NoMemory>
    ensures code { IfOk result (λ code. code ≡ code_of error) }
    ensures memory { OnOk result (error ≢ StageError.NoMemory) }
{
    match error {
        StageError::ReadOnly => Ok(ErrorCode::RequestDenied),
        StageError::Space(_) => Ok(ErrorCode::RequestDenied),
        StageError::Operations => Ok(ErrorCode::LimitExceeded),
        StageError::Bytes => Ok(ErrorCode::LimitExceeded),
        StageError::Keys => Ok(ErrorCode::LimitExceeded),
        StageError::NoMemory => Err(NoMemory),
    }
}
