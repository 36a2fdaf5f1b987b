//! The hierarchy of a file.

ghost use Rattle.kt_decls_hierarchy.specs.Marks.{completed, completed_from, marked, with_flags};
ghost use Rattle.kt_decls_rules.specs.Tables as rules;
ghost use Rattle.kt_decls_types.specs.Scopes.{class_named};
ghost use Rattle.kt_tree.specs.Declarations.{declaration_tree};
ghost use Rattle.kt_types.specs.Kinds.{flag};
ghost use Rattle.kt_types_order.specs.Graph.{Graph};
ghost use Rattle.kt_types_tree.specs.Hierarchy.{header_form, hierarchy_form, super_form};
ghost use Rattle.kt_types_tree.specs.Types.{forms_of, type_form};
ghost use Rattle.std.specs.Prelude.{ℕ, Bool, List, ◌≡◌, map, IfOk};

use crate::drafts::draft;
use crate::marks::{flag_of, marks_above};
use kt_base::NoMemory;
use kt_decls_types::ClassNames;
use kt_tree::Declaration;
use kt_types_cycles::links::class_links;
use kt_types_tree::copying::copy_all;
use kt_types_tree::{ClassHeader, Hierarchy, Supertype};
use sqlite_items::Items;
use std::alloc::Global;

/// Which classes declare `toString`.
fn declare_to_string(alloc: Global, headers: &[ClassHeader]) -> Result<Items<bool>, NoMemory>
    ensures { IfOk result (λ flags. flags ≡ map (λ c. c.has_to_string) (map header_form headers.now)) }
{
    let mut done = Items::new(alloc);
    for header in headers {
        done.push(header.has_to_string)?;
    }
    Ok(done)
}

/// Which classes declare `equals`.
fn declare_equals(alloc: Global, headers: &[ClassHeader]) -> Result<Items<bool>, NoMemory>
    ensures { IfOk result (λ flags. flags ≡ map (λ c. c.has_equals) (map header_form headers.now)) }
{
    let mut done = Items::new(alloc);
    for header in headers {
        done.push(header.has_equals)?;
    }
    Ok(done)
}

fn copy_of(alloc: Global, supertype: &Supertype) -> Result<Supertype, NoMemory>
    ensures { IfOk result (λ copy. super_form copy ≡ super_form supertype.now) }
{
    Ok(Supertype {
        class: supertype.class,
        arguments: copy_all(alloc, supertype.arguments.as_slice())?,
    })
}

/// Copies of supertypes.
fn copies_of(alloc: Global, supertypes: &[Supertype]) -> Result<Items<Supertype>, NoMemory>
    ensures { IfOk result (λ copies. map super_form copies ≡ map super_form supertypes.now) }
{
    let mut done = Items::new(alloc);
    for supertype in supertypes {
        done.push(copy_of(alloc, supertype)?)?;
    }
    Ok(done)
}

/// A copy of a row, with what it has from above.
fn completed_row(
    alloc: Global,
    header: &ClassHeader,
    has_to_string: bool,
    has_equals: bool,
) -> Result<ClassHeader, NoMemory>
    ensures { IfOk result (λ c. header_form c ≡ with_flags has_to_string has_equals (header_form header.now)) }
{
    Ok(ClassHeader {
        kind: header.kind,
        parameters: header.parameters,
        first_bound: header.first_bound,
        supertypes: copies_of(alloc, header.supertypes.as_slice())?,
        has_to_string,
        has_equals,
    })
}

/// Copies of all rows, each with what it has from above.
fn completed_rows(
    alloc: Global,
    headers: &[ClassHeader],
    to_string: &[bool],
    equals: &[bool],
) -> Result<Items<ClassHeader>, NoMemory>
    ensures { (g : Graph) (own other : List Bool) →
        ((row : ℕ) → flag to_string.now row ≡ marked g own row) →
        ((row : ℕ) → flag equals.now row ≡ marked g other row) →
        IfOk result (λ rows. map header_form rows ≡ completed_from g own other 0 (map header_form headers.now)) }
{
    let mut done = Items::new(alloc);
    let mut row = 0;
    for header in headers {
        let has_to_string = flag_of(to_string, row);
        let has_equals = flag_of(equals, row);
        done.push(completed_row(alloc, header, has_to_string, has_equals)?)?;
        row += 1;
    }
    Ok(done)
}

/// The rows of a hierarchy, each with what it has from above.
fn completed_classes(alloc: Global, h: &Hierarchy) -> Result<Items<ClassHeader>, NoMemory>
    ensures { IfOk result (λ rows. map header_form rows ≡ (completed (hierarchy_form h.now)).classes) }
{
    let graph = class_links(alloc, h)?;
    let own = declare_to_string(alloc, h.classes.as_slice())?;
    let to_string = marks_above(alloc, graph.as_slice(), own.as_slice())?;
    let own = declare_equals(alloc, h.classes.as_slice())?;
    let equals = marks_above(alloc, graph.as_slice(), own.as_slice())?;
    completed_rows(
        alloc,
        h.classes.as_slice(),
        to_string.as_slice(),
        equals.as_slice(),
    )
}

/// The hierarchy of a file: its classes by their rows, behind the throwables, and the bounds of all type parameters.
pub fn hierarchy(
    alloc: Global,
    classes: &ClassNames,
    declarations: &[Declaration],
) -> Result<Hierarchy, NoMemory>
    requires { (x : List ℕ) → class_named classes.now x ≡ rules.class_named (map declaration_tree declarations.now) x }
    ensures { IfOk result (λ h. hierarchy_form h ≡ rules.hierarchy_of (map declaration_tree declarations.now)) }
{
    let h = draft(alloc, classes, declarations)?;
    let classes = completed_classes(alloc, &h)?;
    Ok(Hierarchy {
        classes,
        bounds: h.bounds,
    })
}
