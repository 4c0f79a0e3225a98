//! Why a transaction refuses a key or an operation.
use etp_values::{NoMemory, Text};
use thiserror::Error;

/// Why a key isn't noted, or an operation isn't staged. The transaction is then unchanged.
#[derive(Debug, Drop, PartialEq, Eq, Error)]
pub enum StageError {
    /// The transaction only reads.
    #[error("the transaction only reads")]
    ReadOnly,
    /// The transaction wasn't started for this dataspace.
    #[error("the transaction has no dataspace {0:?}")]
    Space(Text),
    /// There are 4,096 operations.
    #[error("the transaction has 4096 operations")]
    Operations,
    /// The operations would count more than 67,108,864 bytes.
    #[error("the operations would count more than 67108864 bytes")]
    Bytes,
    /// There are 16,384 touched keys.
    #[error("the transaction has touched 16384 keys")]
    Keys,
    /// Out of memory.
    #[error("out of memory")]
    NoMemory,
}

impl From<NoMemory> for StageError {
    ghost use Rattle.std.specs.Prelude.{◌≡◌};
    ghost use Rattle.tx_stage.specs.declared.error.StageError.TheVariants.{NoMemory};

    ghost from_gives = { λ _ e. e ≡ NoMemory };

    fn from(_error: NoMemory) -> StageError {
        StageError::NoMemory
    }
}
