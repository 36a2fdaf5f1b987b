//! Classes and bounds that lead back to themselves.

ghost use Rattle.kt_decls_facts.specs.Facts.{Knows};
ghost use Rattle.kt_decls_rules.specs.Rules.{DoBoundsEnd};
ghost use Rattle.kt_decls_rules.specs.Tables.{hierarchy_of};
ghost use Rattle.kt_tree.specs.Declarations.{declaration_tree, type_parameter_tree};
ghost use Rattle.kt_types_order.specs.Graph.{BoundsEnd, ClassesEnd, Reaches, bound_graph, class_graph};
ghost use Rattle.kt_types_tree.specs.Hierarchy.{hierarchy_form};
ghost use Rattle.std.specs.Prelude.{◌≡◌, ◌<◌, ◌^◌, ◌↔◌, map, not, IfOk, IsTrue};

use kt_base::NoMemory;
use kt_decls_facts::FileFacts;
use kt_tree::{Declaration, TypeParameter};
use kt_types_cycles::search::leads_back;
use std::alloc::Global;

/// Whether a class isn't above itself.
pub fn is_not_above_itself(
    alloc: Global,
    file: &[Declaration],
    facts: &FileFacts,
    row: u32,
) -> Result<bool, NoMemory>
    requires known { Knows (map declaration_tree file.now) facts.now }
    ensures { IfOk result (λ yes. IsTrue yes
        ↔ (Reaches (class_graph (hierarchy_of (map declaration_tree file.now))) row row → ⊥)) }
{
    let ends = facts.links.ends;
    if ends {
        return Ok(true);
    }
    let back = leads_back(alloc, facts.links.classes.as_slice(), row as usize)?;
    Ok(!back)
}

/// Whether the bound in a row doesn't lead back to itself.
fn does_bound_end(
    alloc: Global,
    file: &[Declaration],
    facts: &FileFacts,
    row: usize,
) -> Result<bool, NoMemory>
    requires known { Knows (map declaration_tree file.now) facts.now }
    ensures { IfOk result (λ yes. IsTrue yes
        ↔ (Reaches (bound_graph (hierarchy_of (map declaration_tree file.now))) row row → ⊥)) }
{
    let ends = facts.links.ends;
    if ends {
        return Ok(true);
    }
    let back = leads_back(alloc, facts.links.bounds.as_slice(), row)?;
    Ok(!back)
}

/// Whether no bound of these type parameters leads back to itself; the first has the row that is given.
pub fn do_bounds_end(
    alloc: Global,
    file: &[Declaration],
    facts: &FileFacts,
    first: u32,
    parameters: &[TypeParameter],
) -> Result<bool, NoMemory>
    requires known { Knows (map declaration_tree file.now) facts.now }
    ensures { IfOk result (λ yes. IsTrue yes ↔ DoBoundsEnd (hierarchy_of (map declaration_tree file.now)) first
        (map type_parameter_tree parameters.now)) }
{
    let mut row = first as usize;
    for _parameter in parameters {
        let fine = does_bound_end(alloc, file, facts, row)?;
        if !fine {
            return Ok(false);
        }
        row += 1;
    }
    Ok(true)
}
