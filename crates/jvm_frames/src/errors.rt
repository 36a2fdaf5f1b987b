//! Why bytes spell no frames.

ghost use Rattle.jvm_frames.specs.FrameErrs.{frame_err};
ghost use Rattle.jvm_frames.specs.declared.errors.FrameErr.TheVariants as frame_errs;
ghost use Rattle.std.specs.Prelude.{◌≡◌};

use jvm_class_formats::ReadErr;
use kt_base::NoMemory;
use std::alloc::{AllocError, AllocFailed};
use thiserror::Error;

/// Why bytes spell no frames.
#[derive(Clone, Copy, Debug, PartialEq, Eq, Hash, Error)]
pub enum FrameErr {
    /// The offset is the start of the first frame that breaks its rule, or the length of the bytes where these end
    /// within a frame.
    #[error("no frames: offset {offset}")]
    Bad { offset: u64 },
    #[error("out of memory")]
    NoMemory,
}

impl From<ReadErr> for FrameErr {
    ghost from_gives = { λ read e. e ≡ frame_err read };

    fn from(error: ReadErr) -> FrameErr {
        match error {
            ReadErr::BadBytes { offset } => FrameErr::Bad { offset },
            ReadErr::NoMemory => FrameErr::NoMemory,
        }
    }
}

impl From<NoMemory> for FrameErr {
    ghost from_gives = { λ _ e. e ≡ frame_errs.NoMemory };

    fn from(_: NoMemory) -> FrameErr {
        FrameErr::NoMemory
    }
}

impl From<AllocError> for FrameErr {
    ghost from_gives = { λ _ e. e ≡ frame_errs.NoMemory };

    fn from(_: AllocError) -> FrameErr {
        FrameErr::NoMemory
    }
}

impl<T: Drop> From<AllocFailed<T>> for FrameErr {
    ghost from_gives = { λ _ e. e ≡ frame_errs.NoMemory };

    fn from(_: AllocFailed<T>) -> FrameErr {
        FrameErr::NoMemory
    }
}
