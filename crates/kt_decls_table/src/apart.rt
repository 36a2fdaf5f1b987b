//! Whether the names of parameters differ.

ghost use Rattle.kt_decls_rules.specs.Names as rules;
ghost use Rattle.kt_tree.specs.Declarations.{typed_parameter_tree};
ghost use Rattle.std.specs.Prelude.{◌≡◌, IfOk, map};

use kt_base::NoMemory;
use kt_decls_names::TakenNames;
use kt_tree::Parameter;
use std::alloc::Global;

/// Whether no two parameters have one name.
pub fn are_distinct(alloc: Global, parameters: &[Parameter]) -> Result<bool, NoMemory>
    ensures { IfOk result (λ apart.
        apart ≡ rules.are_distinct (map (λ p. p.name) (map typed_parameter_tree parameters.now))) }
{
    let mut taken = TakenNames::new(alloc);
    for parameter in parameters {
        if !taken.take_value(&parameter.name)? {
            return Ok(false);
        }
    }
    Ok(true)
}
