//! All classes, each by its number.

ghost use Rattle.class_link.specs.Classes.{file_classes, linked_of, own_classes};
ghost use Rattle.class_tables.specs.Dispatch.{AreOwnSlots};
ghost use Rattle.class_linked.specs.Numbers.{first_file_class};
ghost use Rattle.std.specs.Prelude.{◌≡◌, ◌++◌, IfOk, take};

use crate::classes::{file_class, own_class};
use class_constants::fields::sum;
use class_linked::{Linked, LinkedClass, MethodPlace};
use class_members::Hierarchy;
use class_tables::all_own_slots;
use jvm_class_types::ClassFile;
use kt_base::NoMemory;
use sqlite_items::{Items, at};
use std::alloc::Global;

/// The number of the first class of a class file: the classes of the machine and those of arrays stand before it.
pub const FIRST_FILE: usize = 36;

/// The classes that need no class file.
#[tactic(auto, using(crate::proofs::Numbered::own_next, crate::proofs::Numbered::own_none))]
fn own_classes(
    alloc: Global,
    h: &Hierarchy,
    rows: &[Items<MethodPlace>],
) -> Result<Items<LinkedClass>, NoMemory>
    requires { AreOwnSlots h.now rows.now }
    ensures { IfOk result (λ made. made ≡ own_classes h.now 0 (take first_file_class h.now.headers)) }
{
    let mut made = Items::new(alloc);
    for class in 0..FIRST_FILE {
        match at(h.headers.as_slice(), class) {
            None => {}
            Some(own) => made.push(own_class(alloc, h, rows, class, own)?)?,
        }
    }
    Ok(made)
}

/// Puts the classes of class files behind those that are there.
fn with_files(
    alloc: Global,
    h: &Hierarchy,
    rows: &[Items<MethodPlace>],
    own: Items<LinkedClass>,
    files: Vec<ClassFile>,
) -> Result<Items<LinkedClass>, NoMemory>
    requires { AreOwnSlots h.now rows.now }
    ensures { IfOk result (λ made. made ≡ own ++ file_classes h.now first_file_class files.items) }
{
    let mut made = own;
    let mut class = FIRST_FILE;
    for file in files {
        made.push(file_class(alloc, h, rows, class, file)?)?;
        class = sum(class, 1)?;
    }
    Ok(made)
}

fn before_files(
    alloc: Global,
    h: &Hierarchy,
) -> Result<(Items<Items<MethodPlace>>, Items<LinkedClass>), NoMemory>
    ensures { IfOk result (λ found. AreOwnSlots h.now found.0
        × (found.1 ≡ own_classes h.now 0 (take first_file_class h.now.headers))) }
{
    let rows = all_own_slots(alloc, h)?;
    let own = own_classes(alloc, h, rows.as_slice())?;
    Ok((rows, own))
}

/// What linking makes of class files in a hierarchy.
pub(crate) fn linked_of(
    alloc: Global,
    h: &Hierarchy,
    files: Vec<ClassFile>,
) -> Result<Linked, NoMemory>
    ensures { IfOk result (λ linked. linked ≡ linked_of h.now files.items) }
{
    match before_files(alloc, h) {
        Ok((rows, own)) => match with_files(alloc, h, rows.as_slice(), own, files) {
            Ok(classes) => Ok(Linked { classes }),
            Err(error) => Err(error),
        },
        Err(error) => Err(error),
    }
}
