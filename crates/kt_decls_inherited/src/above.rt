//! The descriptors of the functions that a class has from above.

ghost use Rattle.kt_decls_inherited.specs.Descriptors as spec;
ghost use Rattle.kt_decls_inherited.specs.Descriptors.{all_up, at_row, descriptor_in, descriptors_up};
ghost use Rattle.kt_decls_inherited.specs.Erased.{descriptor_form};
ghost use Rattle.kt_decls_facts.specs.Facts.{Knows};
ghost use Rattle.kt_decls_inherited.specs.Sights as sights;
ghost use Rattle.kt_decls_inherited.specs.Sights.{sight_form};
ghost use Rattle.kt_decls_rules.specs.Members.{inherited, members_of_any};
ghost use Rattle.kt_decls_types.specs.Scopes.{class_named};
ghost use Rattle.kt_tree.specs.Declarations.{declaration_tree};
ghost use Rattle.kt_types_tree.specs.Hierarchy.{hierarchy_form, super_form};
ghost use Rattle.std.specs.Prelude.{[], Some, ◌≡◌, ◌++◌, map, option_map, IfOk};

use crate::choosing::{declared_descriptor, of_any, own_descriptor};
use crate::erasing::Descriptor;
use crate::finding::row_sight;
use crate::sights::Sight;
use kt_base::NoMemory;
use kt_decls_facts::FileFacts;
use kt_decls_types::ClassNames;
use kt_tree::Declaration;
use kt_types_tree::{Hierarchy, Supertype};
use sqlite_items::Items;
use std::alloc::Global;

/// The one descriptor of a function that a class declares.
fn declared_alone(
    alloc: Global,
    h: &Hierarchy,
    above: &[Option<Descriptor>],
    any: &[Option<Descriptor>],
    sight: &Sight,
) -> Result<Items<Option<Descriptor>>, NoMemory>
    ensures { IfOk result (λ all. map (option_map descriptor_form) all ≡ spec.one_or (hierarchy_form h.now).bounds
        (map (option_map descriptor_form) any.now) (Some (sight_form sight.now))
        (map (option_map descriptor_form) above.now)) }
{
    let own = own_descriptor(alloc, h, sight)?;
    let chosen = declared_descriptor(alloc, above, any, own)?;
    let mut all = Items::new(alloc);
    all.push(chosen)?;
    Ok(all)
}

/// The descriptors of the functions of this name with so many parameters that the class in a row has from above,
/// within so many steps, those of its first supertype first.
#[cycle(above)]
fn descriptors_from(
    alloc: Global,
    file: &[Declaration],
    places: &[usize],
    classes: &ClassNames,
    h: &Hierarchy,
    any: &[Option<Descriptor>],
    name: &[u8],
    count: usize,
    steps: usize,
    row: u32,
) -> Result<Items<Option<Descriptor>>, NoMemory>
    requires { map (option_map descriptor_form) any.now ≡ spec.of_any name.now count }
    ensures { IfOk result (λ found. map (option_map descriptor_form) found ≡ descriptors_up (class_named classes.now)
        (hierarchy_form h.now) (map declaration_tree file.now) places.now name.now count steps row) }
{
    if steps == 0 {
        return Ok(Items::new(alloc));
    }
    let supertypes = h.supertypes_of(row);
    descriptors_of(
        alloc,
        file,
        places,
        classes,
        h,
        any,
        name,
        count,
        steps - 1,
        supertypes,
    )
}

/// The same by way of several supertypes.
#[cycle(above)]
fn descriptors_of(
    alloc: Global,
    file: &[Declaration],
    places: &[usize],
    classes: &ClassNames,
    h: &Hierarchy,
    any: &[Option<Descriptor>],
    name: &[u8],
    count: usize,
    steps: usize,
    supertypes: &[Supertype],
) -> Result<Items<Option<Descriptor>>, NoMemory>
    requires { map (option_map descriptor_form) any.now ≡ spec.of_any name.now count }
    ensures { IfOk result (λ found. map (option_map descriptor_form) found ≡ all_up (class_named classes.now)
        (hierarchy_form h.now) (map declaration_tree file.now) places.now name.now count steps
        (map super_form supertypes.now)) }
{
    let mut done = Items::new(alloc);
    for supertype in supertypes {
        let row = supertype.class;
        let found = descriptors_in(
            alloc, file, places, classes, h, any, name, count, steps, row,
        )?;
        done.append(found)?;
    }
    Ok(done)
}

/// That of what the class in a row declares, else those of what it has from above.
#[cycle(above)]
fn descriptors_in(
    alloc: Global,
    file: &[Declaration],
    places: &[usize],
    classes: &ClassNames,
    h: &Hierarchy,
    any: &[Option<Descriptor>],
    name: &[u8],
    count: usize,
    steps: usize,
    row: u32,
) -> Result<Items<Option<Descriptor>>, NoMemory>
    requires { map (option_map descriptor_form) any.now ≡ spec.of_any name.now count }
    ensures { IfOk result (λ found. map (option_map descriptor_form) found ≡ at_row (class_named classes.now)
        (hierarchy_form h.now) (map declaration_tree file.now) places.now name.now count steps row) }
{
    let above = descriptors_from(
        alloc, file, places, classes, h, any, name, count, steps, row,
    )?;
    match row_sight(alloc, file, places, classes, h, name, count, row)? {
        Some(sight) => declared_alone(alloc, h, above.as_slice(), any, &sight),
        None => Ok(above),
    }
}

/// The descriptors of the functions of this name with so many parameters that a class has from above, those of its
/// first supertype first, and of the one that every class has.
pub fn descriptors_above(
    alloc: Global,
    file: &[Declaration],
    places: &[usize],
    facts: &FileFacts,
    name: &[u8],
    count: usize,
    row: u32,
) -> Result<Items<Option<Descriptor>>, NoMemory>
    requires known { Knows (map declaration_tree file.now) facts.now }
    requires places { places.now ≡ sights.places (map declaration_tree file.now) }
    ensures { IfOk result (λ found. map (option_map descriptor_form) found ≡ map descriptor_in
        (inherited (map declaration_tree file.now) name.now count row)) }
{
    let h = &facts.hierarchy;
    let any = of_any(alloc, name, count)?;
    let any = any.as_slice();
    descriptors_from(
        alloc,
        file,
        places,
        &facts.classes,
        h,
        any,
        name,
        count,
        h.classes.len(),
        row,
    )
}
