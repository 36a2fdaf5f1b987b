//! The functions that a class has from above.

ghost use Rattle.kt_decls_facts.specs.Facts.{Knows};
ghost use Rattle.kt_decls_inherited.specs.Rows.{all_up, at_row, one_or, sights_up};
ghost use Rattle.kt_decls_inherited.specs.Sights as spec;
ghost use Rattle.kt_decls_inherited.specs.Sights.{sight_form, sight_of};
ghost use Rattle.kt_decls_rules.specs.Members.{inherited};
ghost use Rattle.kt_decls_types.specs.Scopes.{class_named};
ghost use Rattle.kt_tree.specs.Declarations.{declaration_tree};
ghost use Rattle.kt_types_tree.specs.Hierarchy.{hierarchy_form, super_form};
ghost use Rattle.std.specs.Prelude.{[], Some, ◌≡◌, map, IfOk};

use crate::any::any_sights;
use crate::finding::row_sight;
use crate::sights::{Sight, push_seen};
use kt_base::NoMemory;
use kt_decls_facts::FileFacts;
use kt_decls_types::ClassNames;
use kt_tree::Declaration;
use kt_types_tree::{Hierarchy, Supertype};
use sqlite_items::Items;
use std::alloc::Global;

fn alone(alloc: Global, sight: Sight) -> Result<Items<Sight>, NoMemory>
    ensures { IfOk result (λ all. map sight_form all ≡ one_or (Some (sight_form sight)) []) }
{
    let mut all = Items::new(alloc);
    all.push(sight)?;
    Ok(all)
}

/// What is seen of the functions of this name with so many parameters that the class in a row has from above, within
/// so many steps, those of its first supertype first.
#[cycle(inheriting)]
fn sights_from(
    alloc: Global,
    file: &[Declaration],
    places: &[usize],
    classes: &ClassNames,
    h: &Hierarchy,
    name: &[u8],
    count: usize,
    steps: usize,
    row: u32,
) -> Result<Items<Sight>, NoMemory>
    ensures { IfOk result (λ found. map sight_form found ≡ sights_up (class_named classes.now)
        (hierarchy_form h.now) (map declaration_tree file.now) places.now name.now count steps row) }
{
    if steps == 0 {
        return Ok(Items::new(alloc));
    }
    let supertypes = h.supertypes_of(row);
    sights_of(
        alloc,
        file,
        places,
        classes,
        h,
        name,
        count,
        steps - 1,
        supertypes,
    )
}

/// The same by way of several supertypes.
#[cycle(inheriting)]
fn sights_of(
    alloc: Global,
    file: &[Declaration],
    places: &[usize],
    classes: &ClassNames,
    h: &Hierarchy,
    name: &[u8],
    count: usize,
    steps: usize,
    supertypes: &[Supertype],
) -> Result<Items<Sight>, NoMemory>
    ensures { IfOk result (λ found. map sight_form found ≡ all_up (class_named classes.now)
        (hierarchy_form h.now) (map declaration_tree file.now) places.now name.now count steps
        (map super_form supertypes.now)) }
{
    let mut done = Items::new(alloc);
    for supertype in supertypes {
        let row = supertype.class;
        let found = sights_in(alloc, file, places, classes, h, name, count, steps, row)?;
        push_seen(
            alloc,
            supertype.arguments.as_slice(),
            found.as_slice(),
            &mut done,
        )?;
    }
    Ok(done)
}

/// What the class in a row declares, else what it has from above.
#[cycle(inheriting)]
fn sights_in(
    alloc: Global,
    file: &[Declaration],
    places: &[usize],
    classes: &ClassNames,
    h: &Hierarchy,
    name: &[u8],
    count: usize,
    steps: usize,
    row: u32,
) -> Result<Items<Sight>, NoMemory>
    ensures { IfOk result (λ found. map sight_form found ≡ at_row (class_named classes.now)
        (hierarchy_form h.now) (map declaration_tree file.now) places.now name.now count steps row) }
{
    match row_sight(alloc, file, places, classes, h, name, count, row)? {
        Some(sight) => alone(alloc, sight),
        None => sights_from(alloc, file, places, classes, h, name, count, steps, row),
    }
}

/// What is seen of the functions of this name with so many parameters that a class has from above, those of its first
/// supertype first. It takes time by the ways up to a class that declares one.
pub fn sights_above(
    alloc: Global,
    file: &[Declaration],
    places: &[usize],
    facts: &FileFacts,
    name: &[u8],
    count: usize,
    row: u32,
) -> Result<Items<Sight>, NoMemory>
    requires known { Knows (map declaration_tree file.now) facts.now }
    requires places { places.now ≡ spec.places (map declaration_tree file.now) }
    ensures { IfOk result (λ found. map sight_form found
        ≡ map sight_of (inherited (map declaration_tree file.now) name.now count row)) }
{
    let h = &facts.hierarchy;
    sights_from(
        alloc,
        file,
        places,
        &facts.classes,
        h,
        name,
        count,
        h.classes.len(),
        row,
    )
}

/// The same, with the one that every class has behind them.
pub fn all_sights(
    alloc: Global,
    file: &[Declaration],
    places: &[usize],
    facts: &FileFacts,
    name: &[u8],
    count: usize,
    row: u32,
) -> Result<Items<Sight>, NoMemory>
    requires known { Knows (map declaration_tree file.now) facts.now }
    requires places { places.now ≡ spec.places (map declaration_tree file.now) }
    ensures { IfOk result (λ found. map sight_form found
        ≡ spec.all_sights (map declaration_tree file.now) name.now count row) }
{
    let mut found = sights_above(alloc, file, places, facts, name, count, row)?;
    let any = any_sights(alloc, name, count)?;
    found.append(any)?;
    Ok(found)
}
