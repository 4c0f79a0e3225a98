//! Why an array is refused.
ghost use Rattle.std.specs.Prelude.{◌≡◌};
ghost use Rattle.array_store.specs.Codes.{code_of};

use etp_values::{ErrorCode, NoMemory};
use thiserror::Error;

/// Why an array, a region or values are refused. The variants are in the order in which they are tested.
#[derive(Clone, Copy, Debug, PartialEq, Eq, Error)]
pub enum ArrayError {
    /// There are not 1 to 8 dimensions, or not as many starts or counts as dimensions.
    #[error("there are not 1 to 8 dimensions, or not as many starts and counts")]
    Rank,
    /// A dimension, a start or a count is negative, or a start plus its count exceeds the dimension.
    #[error("a dimension, a start or a count is negative, or a region passes a dimension")]
    Outside,
    /// The values are of another kind than the array.
    #[error("the values are of another kind than the array")]
    Kind,
    /// There are not as many elements as the dimensions or counts make.
    #[error("there are not as many elements as the dimensions or counts make")]
    Count,
    /// An array would have more than 4,194,304 elements, or their size would be more than 33,554,432 bytes.
    #[error("the array would have more than 4194304 elements or 33554432 bytes")]
    TooLarge,
    /// Out of memory.
    #[error("out of memory")]
    NoMemory,
}

impl ArrayError {
    /// The code with which a request for such an array, region or patch is refused. Running out of memory is not a refusal, and has a code
    /// only so that each error has one.
    pub fn code(self) -> ErrorCode
        ensures { result ≡ code_of self }
    {
        match self {
            ArrayError::Rank => ErrorCode::InvalidArgument,
            ArrayError::Outside => ErrorCode::InvalidArgument,
            ArrayError::Kind => ErrorCode::InvalidArgument,
            ArrayError::Count => ErrorCode::InvalidArgument,
            ArrayError::TooLarge => ErrorCode::SizeExceeded,
            ArrayError::NoMemory => ErrorCode::InvalidArgument,
        }
    }
}

impl From<NoMemory> for ArrayError {
    ghost use Rattle.std.specs.Prelude.{◌≡◌};
    ghost use Rattle.array_store.specs.declared.error.ArrayError.TheVariants.{NoMemory};

    ghost from_gives = { λ _ e. e ≡ NoMemory };

    fn from(_error: NoMemory) -> ArrayError {
        ArrayError::NoMemory
    }
}
