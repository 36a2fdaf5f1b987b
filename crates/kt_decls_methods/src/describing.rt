//! One descriptor for all functions of a name and a number of parameters that meet in a class.

ghost use Rattle.kt_decls_inherited.specs.Descriptors.{descriptor_in};
ghost use Rattle.kt_decls_inherited.specs.Erased.{descriptor_form};
ghost use Rattle.kt_decls_facts.specs.Facts.{Knows};
ghost use Rattle.kt_decls_inherited.specs.Sights as sights;
ghost use Rattle.kt_decls_methods.specs.Describing.{AreDescriptor, AreFirst};
ghost use Rattle.kt_decls_rules.specs.Members.{inherited, members_of_any};
ghost use Rattle.kt_tree.specs.Declarations.{declaration_tree};
ghost use Rattle.std.specs.Prelude.{◌≡◌, ◌++◌, ◌↔◌, map, option_map, IfOk, IsTrue};

use kt_base::NoMemory;
use kt_decls_facts::FileFacts;
use kt_decls_inherited::choosing::of_any;
use kt_decls_inherited::{Descriptor, descriptors_above, is_same_descriptor};
use kt_tree::Declaration;
use sqlite_items::Items;
use std::alloc::Global;

/// Whether each of several descriptors is this one.
pub fn are_descriptor(one: &Option<Descriptor>, all: &[Option<Descriptor>]) -> bool
    ensures { IsTrue result
        ↔ AreDescriptor (option_map descriptor_form one.now) (map (option_map descriptor_form) all.now) }
{
    for each in all {
        let fine = is_same_descriptor(one, each);
        if !fine {
            return false;
        }
    }
    true
}

/// Whether each of several descriptors is that of the first.
fn are_first(all: &[Option<Descriptor>]) -> bool
    ensures { IsTrue result ↔ AreFirst (map (option_map descriptor_form) all.now) }
{
    match all {
        [] => true,
        [first, _rest @ ..] => are_descriptor(first, all),
    }
}

/// The descriptors of all functions of this name with so many parameters that a class has from above, and of the one
/// that every class has.
fn all_descriptors(
    alloc: Global,
    file: &[Declaration],
    places: &[usize],
    facts: &FileFacts,
    name: &[u8],
    count: usize,
    row: u32,
) -> Result<Items<Option<Descriptor>>, NoMemory>
    requires known { Knows (map declaration_tree file.now) facts.now }
    requires places { places.now ≡ sights.places (map declaration_tree file.now) }
    ensures { IfOk result (λ found. map (option_map descriptor_form) found ≡ map descriptor_in
        (inherited (map declaration_tree file.now) name.now count row ++ members_of_any name.now count)) }
{
    let mut found = descriptors_above(alloc, file, places, facts, name, count, row)?;
    let any = of_any(alloc, name, count)?;
    found.append(any)?;
    Ok(found)
}

/// Whether all functions of this name with so many parameters that a class has from above have one descriptor.
pub fn have_one_descriptor(
    alloc: Global,
    file: &[Declaration],
    places: &[usize],
    facts: &FileFacts,
    name: &[u8],
    count: usize,
    row: u32,
) -> Result<bool, NoMemory>
    requires known { Knows (map declaration_tree file.now) facts.now }
    requires places { places.now ≡ sights.places (map declaration_tree file.now) }
    ensures { IfOk result (λ yes. IsTrue yes ↔ AreFirst (map descriptor_in
        (inherited (map declaration_tree file.now) name.now count row ++ members_of_any name.now count))) }
{
    let found = all_descriptors(alloc, file, places, facts, name, count, row)?;
    Ok(are_first(found.as_slice()))
}
