//! Why a structure is not built or not read.
ghost use Rattle.std.specs.Prelude.{◌≡◌};
ghost use Rattle.sw_models.specs.declared.errors.BuildError.{BuildError};
ghost use Rattle.sw_models.specs.declared.errors.StructureError.{StructureError};

use std::alloc::{AllocError, AllocFailed};
use thiserror::Error;

/// Why a builder refuses.
#[derive(Clone, Copy, Debug, PartialEq, Eq, Error)]
pub enum BuildError {
    /// The first size of 0 is that of this sort.
    #[error("the size of sort {sort} is 0")]
    SizeZero { sort: u32 },

    /// A tuple or a value is not below the size of its sort.
    #[error("a value is out of its range")]
    ValueRange,

    /// Memory ran out.
    #[error("out of memory")]
    Memory,
}

/// Why a text is no structure of its signature. Places are those of bytes, from 0.
#[derive(Clone, Copy, Debug, PartialEq, Eq, Error)]
pub enum StructureError {
    /// The line that begins here has not the form of the line that has to stand here.
    #[error("the line at {at} is not the one that is expected")]
    Syntax { at: u32 },

    /// The line that begins here has a size of 0.
    #[error("the size in the line at {at} is 0")]
    SizeZero { at: u32 },

    /// The table that begins here has not one entry for each tuple.
    #[error("the table at {at} has not one entry for each tuple")]
    TableLength { at: u32 },

    /// The value that stands here is not below the size of its sort.
    #[error("the value at {at} is not below the size of its sort")]
    ValueRange { at: u32 },

    /// Memory ran out, or the text's length does not fit u32.
    #[error("out of memory")]
    Memory,
}

impl<T: Drop> From<AllocFailed<T>> for StructureError {
    ghost from_gives = { λ _ e. e ≡ StructureError.Memory };

    fn from(_: AllocFailed<T>) -> StructureError {
        StructureError::Memory
    }
}

impl From<AllocError> for StructureError {
    ghost from_gives = { λ _ e. e ≡ StructureError.Memory };

    fn from(_: AllocError) -> StructureError {
        StructureError::Memory
    }
}

impl<T: Drop> From<AllocFailed<T>> for BuildError {
    ghost from_gives = { λ _ e. e ≡ BuildError.Memory };

    fn from(_: AllocFailed<T>) -> BuildError {
        BuildError::Memory
    }
}

impl From<AllocError> for BuildError {
    ghost from_gives = { λ _ e. e ≡ BuildError.Memory };

    fn from(_: AllocError) -> BuildError {
        BuildError::Memory
    }
}
