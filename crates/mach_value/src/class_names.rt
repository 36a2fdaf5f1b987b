//! Names of classes, shared by the objects that are of them.

ghost use Rattle.std.specs.Prelude.{◌≡◌, IfOk};

use kt_base::{Name, NoMemory};
use std::alloc::Global;
use std::marker::Model;
use std::sync::Arc;

/// The name of a class. All objects of a class share one copy of it.
#[derive(Drop)]
pub struct ClassName {
    name: Arc<Name, Global>,
}

impl Model for ClassName {
    ghost use Rattle.std.specs.Prelude.{ℕ, List};

    ghost Value = { List ℕ };

    ghost view = { λ c. c.name.value };
}

impl ClassName {
    /// A class of this name.
    pub fn of(alloc: Global, name: Name) -> Result<ClassName, NoMemory>
        ensures { IfOk result (λ class. class ≡ name) }
    {
        Ok(ClassName {
            name: Arc::new(alloc, name)?,
        })
    }

    /// The same name once more, without a copy of it.
    pub fn share(&self) -> Result<ClassName, NoMemory>
        ensures { IfOk result (λ class. class ≡ self.now) }
    {
        Ok(ClassName {
            name: Arc::try_clone(&self.name)?,
        })
    }

    /// The name.
    pub fn name(&self) -> &Name
        ensures { result.now ≡ self.now }
    {
        &self.name
    }
}
