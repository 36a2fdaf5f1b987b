//! The names that a scope has taken.

ghost use Rattle.kt_decls_names.specs.Taken.{has_type, has_function, has_function_name, has_value, is_taken};
ghost use Rattle.kt_decls_rules.specs.Names.{Taken, a_type, a_function, a_value, clash};
ghost use Rattle.std.specs.Prelude.{◌≡◌, ◌||◌, ℕ, List, IfOk, OnOk, false, not};

use kt_base::{Name, NoMemory};
use std::alloc::Global;
use std::collections::BTreeSet;

/// What the declarations of a scope have taken: names of types, functions by name and number of parameters, and names
/// of properties and constants. Each question takes logarithmic time.
#[derive(Drop)]
pub struct TakenNames {
    pub types: BTreeSet<Name>,
    pub functions: BTreeSet<(Name, u32)>,
    pub function_names: BTreeSet<Name>,
    pub values: BTreeSet<Name>,
}

impl TakenNames {
    /// Nothing is taken.
    pub fn new(alloc: Global) -> TakenNames
        ensures { (t : Taken) → is_taken result t ≡ false }
    {
        TakenNames {
            types: BTreeSet::new(alloc),
            functions: BTreeSet::new(alloc),
            function_names: BTreeSet::new(alloc),
            values: BTreeSet::new(alloc),
        }
    }

    /// Takes the name of a type, and says whether it was free.
    pub fn take_type(&mut self, name: &Name) -> Result<bool, NoMemory>
        ensures free { IfOk result (λ free. free ≡ not (is_taken self.old (a_type name.now))) }
        ensures taken { OnOk result ((t : Taken) →
            is_taken self.new t ≡ (clash t (a_type name.now) || is_taken self.old t)) }
    {
        Ok(self.types.insert(name.clone()?)?)
    }

    /// Takes the name of a property or a constant, and says whether it was free.
    pub fn take_value(&mut self, name: &Name) -> Result<bool, NoMemory>
        ensures free { IfOk result (λ free. free ≡ not (is_taken self.old (a_value name.now))) }
        ensures taken { OnOk result ((t : Taken) →
            is_taken self.new t ≡ (clash t (a_value name.now) || is_taken self.old t)) }
    {
        let is_function = self.function_names.contains(name);
        let is_new = self.values.insert(name.clone()?)?;
        Ok(is_new && !is_function)
    }

    /// Takes a function with so many parameters, and says whether it was free.
    pub fn take_function(&mut self, name: &Name, parameters: u32) -> Result<bool, NoMemory>
        ensures free { IfOk result (λ free. free ≡ not (is_taken self.old (a_function name.now parameters))) }
        ensures taken { OnOk result ((t : Taken) →
            is_taken self.new t ≡ (clash t (a_function name.now parameters) || is_taken self.old t)) }
    {
        let is_value = self.values.contains(name);
        let is_new = self.functions.insert((name.clone()?, parameters))?;
        let _first = self.function_names.insert(name.clone()?)?;
        Ok(is_new && !is_value)
    }
}
