//! Why the class isn't put together.

use jvm_code::CodeErr;
use jvm_pool::PoolErr;
use kt_base::NoMemory;
use std::alloc::{AllocError, AllocFailed};
use thiserror::Error;

/// Why the class isn't put together.
#[derive(Debug, Drop, Error)]
pub(crate) enum Unbuilt {
    #[error("a name that isn't ASCII")]
    Name,
    #[error("the constant pool is full")]
    Pool,
    #[error("bytes that are no code")]
    Code,
    #[error("no class file")]
    Class,
    #[error("out of memory")]
    NoMemory,
}

impl From<NoMemory> for Unbuilt {
    fn from(_: NoMemory) -> Unbuilt {
        Unbuilt::NoMemory
    }
}

impl From<AllocError> for Unbuilt {
    fn from(_: AllocError) -> Unbuilt {
        Unbuilt::NoMemory
    }
}

impl<T: Drop> From<AllocFailed<T>> for Unbuilt {
    fn from(_: AllocFailed<T>) -> Unbuilt {
        Unbuilt::NoMemory
    }
}

impl From<PoolErr> for Unbuilt {
    fn from(error: PoolErr) -> Unbuilt {
        match error {
            PoolErr::Full => Unbuilt::Pool,
            PoolErr::NoMemory => Unbuilt::NoMemory,
        }
    }
}

impl From<CodeErr> for Unbuilt {
    fn from(error: CodeErr) -> Unbuilt {
        match error {
            CodeErr::NoMemory => Unbuilt::NoMemory,
            _ => Unbuilt::Code,
        }
    }
}
