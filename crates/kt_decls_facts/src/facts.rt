//! What is known of the types of a file before its headers are judged.

ghost use Rattle.kt_decls_facts.specs.Facts.{AreLinks, Knows};
ghost use Rattle.kt_tree.specs.Declarations.{declaration_tree};
ghost use Rattle.kt_types_order.specs.Graph.{HasNoCycle};
ghost use Rattle.kt_types_tree.specs.Hierarchy.{hierarchy_form};
ghost use Rattle.std.specs.Prelude.{◌↔◌, map, IfOk, IsTrue};

use kt_base::NoMemory;
use kt_decls_grounded::grounded_rows;
use kt_decls_hierarchy::{class_names, hierarchy};
use kt_decls_types::ClassNames;
use kt_tree::Declaration;
use kt_types_cycles::cycles::has_no_cycle;
use kt_types_cycles::links::{bound_links, class_links};
use kt_types_tree::Hierarchy;
use sqlite_items::Items;
use std::alloc::Global;

/// The types of a file, and which rows lead back to themselves.
#[derive(Drop)]
pub struct FileFacts {
    pub classes: ClassNames,
    pub hierarchy: Hierarchy,
    pub links: RowLinks,
}

/// To which rows classes and bounds lead.
#[derive(Drop)]
pub struct RowLinks {
    /// For each class the rows of its declared supertypes.
    pub classes: Items<Items<u32>>,
    /// For each type parameter the row of the type parameter that is its bound, where it is one.
    pub bounds: Items<Items<u32>>,
    /// Whether no class is above itself, and no bound leads back to itself.
    pub ends: bool,
    /// For each class, whether no class at or above it is above itself.
    pub grounded: Vec<bool>,
}

/// Whether neither of two graphs has a row that leads back to itself.
fn do_end(alloc: Global, classes: &[Items<u32>], bounds: &[Items<u32>]) -> Result<bool, NoMemory>
    ensures { IfOk result (λ ends. IsTrue ends ↔ HasNoCycle classes.now × HasNoCycle bounds.now) }
{
    let classes_end = has_no_cycle(alloc, classes)?;
    if classes_end {
        has_no_cycle(alloc, bounds)
    } else {
        Ok(false)
    }
}

/// The links of a hierarchy.
fn links(alloc: Global, h: &Hierarchy) -> Result<RowLinks, NoMemory>
    ensures { IfOk result (λ links. AreLinks (hierarchy_form h.now) links) }
{
    let classes = class_links(alloc, h)?;
    let bounds = bound_links(alloc, h)?;
    let ends = do_end(alloc, classes.as_slice(), bounds.as_slice())?;
    let grounded = grounded_rows(alloc, classes.as_slice())?;
    Ok(RowLinks {
        classes,
        bounds,
        ends,
        grounded,
    })
}

/// What is known of the types of a file.
pub fn file_facts(alloc: Global, declarations: &[Declaration]) -> Result<FileFacts, NoMemory>
    ensures { IfOk result (λ facts. Knows (map declaration_tree declarations.now) facts) }
{
    let classes = class_names(alloc, declarations)?;
    let hierarchy = hierarchy(alloc, &classes, declarations)?;
    let links = links(alloc, &hierarchy)?;
    Ok(FileFacts {
        classes,
        hierarchy,
        links,
    })
}
