//! Why a tree isn't typed.

ghost use Rattle.std.specs.Prelude.{◌≡◌};
ghost use Rattle.kt_check_names.specs.declared.why.Why.TheVariants.{NoMemory};

use kt_base::NoMemory as WantOfMemory;
use std::alloc::AllocError;

/// Why a tree isn't typed.
#[derive(Clone, Copy, Debug, PartialEq, Eq)]
pub enum Why {
    /// By the rules it has no typing.
    Refused,
    /// It has a form that isn't typed yet.
    NotBuilt,
    NoMemory,
}

impl From<AllocError> for Why {
    ghost from_gives = { λ _ e. e ≡ NoMemory };

    fn from(_: AllocError) -> Why {
        Why::NoMemory
    }
}

impl From<WantOfMemory> for Why {
    ghost from_gives = { λ _ e. e ≡ NoMemory };

    fn from(_: WantOfMemory) -> Why {
        Why::NoMemory
    }
}
