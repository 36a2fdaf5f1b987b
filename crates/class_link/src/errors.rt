//! Why classes aren't linked.

ghost use Rattle.class_link.specs.declared.errors.LinkErr.TheVariants as link_err;
ghost use Rattle.std.specs.Prelude.{◌≡◌};

use kt_base::{Name, NoMemory};
use thiserror::Error;

/// Why classes aren't linked.
#[derive(Debug, Drop, Error)]
pub enum LinkErr {
    /// A class names a class, a field or a method that isn't there, or leaves an abstract function without a body while
    /// it isn't abstract. `name` is the class that is missing, or in which the member is missing.
    #[error("a class is missing, or lacks a member")]
    Missing { name: Name },
    /// A class is above itself.
    #[error("a class is above itself")]
    Cycle { name: Name },
    /// `MainKt` has no `main`.
    #[error("there is no main")]
    NoMain,
    #[error("out of memory")]
    NoMemory,
}

impl From<NoMemory> for LinkErr {
    ghost from_gives = { λ _ e. e ≡ link_err.NoMemory };

    fn from(_: NoMemory) -> LinkErr {
        LinkErr::NoMemory
    }
}
