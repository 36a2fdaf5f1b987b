//! To which rows each class and each type parameter leads.

ghost use Rattle.kt_types_order.specs.Graph.{bound_graph, bound_rows, class_graph, super_rows};
ghost use Rattle.kt_types_tree.specs.Hierarchy.{header_form, hierarchy_form, super_form};
ghost use Rattle.kt_types_tree.specs.Types.{type_form};
ghost use Rattle.std.specs.Prelude.{◌≡◌, IfOk, map};

use kt_base::NoMemory;
use kt_types_tree::{ClassHeader, Hierarchy, KtType, Supertype, TypeShape};
use sqlite_items::Items;
use std::alloc::Global;

/// The rows of several supertypes.
fn rows_of(alloc: Global, supertypes: &[Supertype]) -> Result<Items<u32>, NoMemory>
    ensures { IfOk result (λ rows. rows ≡ map (λ s. s.class) (map super_form supertypes.now)) }
{
    let mut rows = Items::new(alloc);
    for each in supertypes {
        rows.push(each.class)?;
    }
    Ok(rows)
}

/// The rows of the declared supertypes of a class.
fn rows_above(alloc: Global, header: &ClassHeader) -> Result<Items<u32>, NoMemory>
    ensures { IfOk result (λ rows. rows ≡ super_rows (header_form header.now)) }
{
    rows_of(alloc, header.supertypes.as_slice())
}

/// For each class the rows of its declared supertypes.
pub fn class_links(alloc: Global, h: &Hierarchy) -> Result<Items<Items<u32>>, NoMemory>
    ensures { IfOk result (λ graph. graph ≡ class_graph (hierarchy_form h.now)) }
{
    let mut graph = Items::new(alloc);
    for header in h.classes.as_slice() {
        graph.push(rows_above(alloc, header)?)?;
    }
    Ok(graph)
}

/// The row of the type parameter that a bound is, with `?` or without.
fn bound_row(alloc: Global, bound: &KtType) -> Result<Items<u32>, NoMemory>
    ensures { IfOk result (λ rows. rows ≡ bound_rows (type_form bound.now)) }
{
    let mut rows = Items::new(alloc);
    match &bound.shape {
        TypeShape::Parameter(row, _) => rows.push(*row)?,
        _ => {}
    }
    Ok(rows)
}

/// For each type parameter the row of the type parameter that is its bound, where it is one.
pub fn bound_links(alloc: Global, h: &Hierarchy) -> Result<Items<Items<u32>>, NoMemory>
    ensures { IfOk result (λ graph. graph ≡ bound_graph (hierarchy_form h.now)) }
{
    let mut graph = Items::new(alloc);
    for bound in h.bounds.as_slice() {
        graph.push(bound_row(alloc, bound)?)?;
    }
    Ok(graph)
}
