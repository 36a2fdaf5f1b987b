//! What the calls of this crate answer in place of a result.

ghost use Rattle.jvm_pool.specs.declared.errors.DescriptorErr.TheVariants as descriptor_err;
ghost use Rattle.jvm_pool.specs.declared.errors.ModifiedErr.TheVariants as modified_err;
ghost use Rattle.jvm_pool.specs.declared.errors.PoolErr.TheVariants as pool_err;
ghost use Rattle.std.specs.Prelude.{◌≡◌};

use kt_base::NoMemory;
use std::alloc::{AllocError, AllocFailed};
use thiserror::Error;

/// Why an entry can't be added to a pool.
#[derive(Clone, Copy, Debug, PartialEq, Eq, Hash, Error)]
pub enum PoolErr {
    /// The pool's count would pass 65,535.
    #[error("the constant pool is full")]
    Full,
    #[error("out of memory")]
    NoMemory,
}

impl From<NoMemory> for PoolErr {
    ghost from_gives = { λ _ e. e ≡ pool_err.NoMemory };

    fn from(_: NoMemory) -> PoolErr {
        PoolErr::NoMemory
    }
}

impl From<AllocError> for PoolErr {
    ghost from_gives = { λ _ e. e ≡ pool_err.NoMemory };

    fn from(_: AllocError) -> PoolErr {
        PoolErr::NoMemory
    }
}

impl<T: Drop> From<AllocFailed<T>> for PoolErr {
    ghost from_gives = { λ _ e. e ≡ pool_err.NoMemory };

    fn from(_: AllocFailed<T>) -> PoolErr {
        PoolErr::NoMemory
    }
}

/// Why bytes aren't read as modified UTF-8.
#[derive(Clone, Copy, Debug, PartialEq, Eq, Hash, Error)]
pub enum ModifiedErr {
    /// The bytes spell no text.
    #[error("no modified UTF-8")]
    Bad,
    #[error("out of memory")]
    NoMemory,
}

impl From<AllocError> for ModifiedErr {
    ghost from_gives = { λ _ e. e ≡ modified_err.NoMemory };

    fn from(_: AllocError) -> ModifiedErr {
        ModifiedErr::NoMemory
    }
}

impl<T: Drop> From<AllocFailed<T>> for ModifiedErr {
    ghost from_gives = { λ _ e. e ≡ modified_err.NoMemory };

    fn from(_: AllocFailed<T>) -> ModifiedErr {
        ModifiedErr::NoMemory
    }
}

/// Why a text isn't read as a descriptor.
#[derive(Clone, Copy, Debug, PartialEq, Eq, Hash, Error)]
pub enum DescriptorErr {
    /// The text is no descriptor.
    #[error("no descriptor")]
    Bad,
    #[error("out of memory")]
    NoMemory,
}

impl From<NoMemory> for DescriptorErr {
    ghost from_gives = { λ _ e. e ≡ descriptor_err.NoMemory };

    fn from(_: NoMemory) -> DescriptorErr {
        DescriptorErr::NoMemory
    }
}

impl<T: Drop> From<AllocFailed<T>> for DescriptorErr {
    ghost from_gives = { λ _ e. e ≡ descriptor_err.NoMemory };

    fn from(_: AllocFailed<T>) -> DescriptorErr {
        DescriptorErr::NoMemory
    }
}
