//! Subtyping, joins, substitution and types without null by rows.

ghost use Rattle.kt_types_order.specs.Graph.{ClassesEnd};
ghost use Rattle.kt_types_tree.specs.Hierarchy.{hierarchy_form};

use crate::samples::{hierarchy, sample};
use kt_base::NoMemory;
use kt_types::substitution::substitute;
use kt_types::subtyping::{is_subtype, is_subtype_but_null, join, without_null};
use kt_types_cycles::cycles::{bounds_end, classes_end};
use kt_types_tree::{Hierarchy, KtType};
use sqlite_items::Items;
use std::alloc::Global;
use std::test::Fail;

fn pair(alloc: Global, a: &str, b: &str) -> Result<(KtType, KtType), NoMemory> {
    let first = sample(alloc, a)?;
    Ok((first, sample(alloc, b)?))
}

/// What is asked of two types.
#[derive(Clone, Copy)]
enum Question {
    IsSubtype,
    IsSubtypeButNull,
}

fn answer(
    alloc: Global,
    h: &Hierarchy,
    question: Question,
    a: &str,
    b: &str,
) -> Result<bool, NoMemory>
    requires { ClassesEnd (hierarchy_form h.now) }
{
    let types = pair(alloc, a, b)?;
    match question {
        Question::IsSubtype => Ok(is_subtype(h, &types.0, &types.1)),
        Question::IsSubtypeButNull => Ok(is_subtype_but_null(h, &types.0, &types.1)),
    }
}

/// The answer in the hierarchy of samples; none where a class of it is above itself.
fn answered(alloc: Global, question: Question, a: &str, b: &str) -> Result<Option<bool>, NoMemory> {
    let h = hierarchy(alloc)?;
    if classes_end(alloc, &h)? {
        Ok(Some(answer(alloc, &h, question, a, b)?))
    } else {
        Ok(None)
    }
}

/// Two types, and whether the first is a subtype of the second.
fn rows() -> [(&'static str, &'static str, bool); 56] {
    [
        ("I", "I", true),
        ("I", "?I", true),
        ("?I", "I", false),
        ("?I", "?I", true),
        ("I", "L", false),
        ("N", "I", true),
        ("N", "aI", true),
        ("?N", "?I", true),
        ("?N", "I", false),
        ("?N", "?p00", true),
        ("N", "p00", true),
        ("I", "A", true),
        ("?I", "A", false),
        ("?I", "?A", true),
        ("A", "?A", true),
        ("?A", "A", false),
        ("A", "C1", false),
        ("U", "A", true),
        ("fU", "A", true),
        ("C1", "C0", true),
        ("?C1", "?C0", true),
        ("?C1", "C0", false),
        ("C1", "?C0", true),
        ("C0", "C1", false),
        ("C3", "G2I", true),
        ("C3", "G2L", false),
        ("C3", "G2?I", false),
        ("C3", "C0", true),
        ("C3", "C1", false),
        ("G4I", "G2a?I", true),
        ("G4I", "G2aI", false),
        ("?G4S", "?G2a?S", true),
        ("G2I", "G2I", true),
        ("G2I", "G2?I", false),
        ("G2N", "G2I", false),
        ("a?I", "a?I", true),
        ("aC1", "aC0", false),
        ("i", "aI", false),
        ("cI", "cI", true),
        ("cN", "cI", false),
        ("fI", "fI", true),
        ("fI", "fA", false),
        ("sI", "fI", false),
        ("fI", "sI", false),
        ("p20", "p20", true),
        ("p20", "C1", true),
        ("p20", "A", true),
        ("?p20", "?C0", true),
        ("C1", "p20", false),
        ("p30", "p20", true),
        ("p30", "C0", true),
        ("p40", "?C1", true),
        ("p40", "A", false),
        ("p50", "p60", true),
        ("p60", "p50", true),
        ("p50", "A", false),
    ]
}

#[test]
fn subtypes(rt: HostRuntime) -> Result<(), Fail> {
    for (below, above, wanted) in rows() {
        let found = answered(rt.alloc(), Question::IsSubtype, below, above)?;
        assert!(&rt; found == Some(wanted), "{below} {above}");
    }
    Ok(())
}

/// Two types, and whether the first without `?` is a subtype of the second without.
fn bare_rows() -> [(&'static str, &'static str, bool); 4] {
    [
        ("?C1", "C0", true),
        ("C1", "?C0", true),
        ("?I", "L", false),
        ("p40", "?C1", false),
    ]
}

#[test]
fn subtypes_but_null(rt: HostRuntime) -> Result<(), Fail> {
    for (below, above, wanted) in bare_rows() {
        let found = answered(rt.alloc(), Question::IsSubtypeButNull, below, above)?;
        assert!(&rt; found == Some(wanted), "{below} {above}");
    }
    Ok(())
}

/// Two types, and the one that is above the other; an empty text is none.
fn joins() -> [(&'static str, &'static str, &'static str); 6] {
    [
        ("I", "?I", "?I"),
        ("C0", "C3", "C0"),
        ("C1", "C3", ""),
        ("N", "p20", "p20"),
        ("?N", "I", ""),
        ("I", "I", "I"),
    ]
}

fn is_join(alloc: Global, h: &Hierarchy, a: &str, b: &str, wanted: &str) -> Result<bool, NoMemory>
    requires { ClassesEnd (hierarchy_form h.now) }
{
    let types = pair(alloc, a, b)?;
    match join(h, &types.0, &types.1) {
        Some(t) => Ok(t.is_same(&sample(alloc, wanted)?)),
        None => Ok(wanted.is_empty()),
    }
}

fn is_sample_join(alloc: Global, a: &str, b: &str, wanted: &str) -> Result<bool, NoMemory> {
    let h = hierarchy(alloc)?;
    if classes_end(alloc, &h)? {
        is_join(alloc, &h, a, b, wanted)
    } else {
        Ok(false)
    }
}

#[test]
fn joined(rt: HostRuntime) -> Result<(), Fail> {
    for (left, right, wanted) in joins() {
        assert!(&rt;
            is_sample_join(rt.alloc(), left, right, wanted)?,
            "{left} {right}"
        );
    }
    Ok(())
}

/// A type, and what a value of it is where it isn't null.
fn values() -> [(&'static str, &'static str); 7] {
    [
        ("?I", "I"),
        ("I", "I"),
        ("?N", "N"),
        ("?A", "A"),
        ("p00", "A"),
        ("?p20", "p20"),
        ("p40", "A"),
    ]
}

fn is_value(alloc: Global, h: &Hierarchy, text: &str, wanted: &str) -> Result<bool, NoMemory>
    requires { ClassesEnd (hierarchy_form h.now) }
{
    let types = pair(alloc, text, wanted)?;
    Ok(without_null(alloc, h, &types.0)?.is_same(&types.1))
}

fn is_sample_value(alloc: Global, text: &str, wanted: &str) -> Result<bool, NoMemory> {
    let h = hierarchy(alloc)?;
    if classes_end(alloc, &h)? {
        is_value(alloc, &h, text, wanted)
    } else {
        Ok(false)
    }
}

#[test]
fn not_null(rt: HostRuntime) -> Result<(), Fail> {
    for (text, wanted) in values() {
        assert!(&rt; is_sample_value(rt.alloc(), text, wanted)?, "{text}");
    }
    Ok(())
}

/// A type, and the type with `Int?` for the first type parameter and `String` for the second.
fn replaced() -> [(&'static str, &'static str); 7] {
    [
        ("p00", "?I"),
        ("?p00", "?I"),
        ("p01", "S"),
        ("?p01", "?S"),
        ("a?p01", "a?S"),
        ("G2cp00", "G2c?I"),
        ("p02", "p02"),
    ]
}

fn arguments(alloc: Global) -> Result<Items<KtType>, NoMemory> {
    let mut all = Items::new(alloc);
    all.push(sample(alloc, "?I")?)?;
    all.push(sample(alloc, "S")?)?;
    Ok(all)
}

fn is_substituted(alloc: Global, text: &str, wanted: &str) -> Result<bool, NoMemory> {
    let arguments = arguments(alloc)?;
    let types = pair(alloc, text, wanted)?;
    Ok(substitute(alloc, &types.0, arguments.as_slice())?.is_same(&types.1))
}

#[test]
fn substituted(rt: HostRuntime) -> Result<(), Fail> {
    for (text, wanted) in replaced() {
        assert!(&rt; is_substituted(rt.alloc(), text, wanted)?, "{text}");
    }
    Ok(())
}

#[test]
fn bounds_that_lead_back(rt: HostRuntime) -> Result<(), Fail> {
    let h = hierarchy(rt.alloc())?;
    assert!(&rt; !bounds_end(rt.alloc(), &h)?);
    Ok(())
}
