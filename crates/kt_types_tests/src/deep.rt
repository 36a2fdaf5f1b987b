//! Hierarchies that are deep, or that meet again in each layer.

ghost use Rattle.kt_types_order.specs.Graph.{ClassesEnd};
ghost use Rattle.kt_types_tree.specs.Hierarchy.{hierarchy_form};

use crate::samples::{header, sample, supertype};
use kt_base::NoMemory;
use kt_types::subtyping::is_subtype;
use kt_types_cycles::cycles::classes_end;
use kt_types_cycles::search::first_on_cycle;
use kt_types_tree::{ClassKind, Hierarchy, KtType, Supertype, TypeConstructor};
use sqlite_items::Items;
use std::alloc::Global;
use std::test::Fail;

/// A class with one argument.
fn class(alloc: Global, row: u32, argument: &str) -> Result<KtType, NoMemory> {
    let mut arguments = Items::new(alloc);
    arguments.push(sample(alloc, argument)?)?;
    Ok(KtType::of(false, TypeConstructor::Class(row), arguments))
}

/// `Cn<T>`, below the class before it with the same argument.
fn below(alloc: Global, row: u32) -> Result<Items<Supertype>, NoMemory> {
    let mut all = Items::new(alloc);
    if row > 0 {
        all.push(supertype(alloc, row - 1, Some(sample(alloc, "p00")?))?)?;
    }
    Ok(all)
}

/// The first class of all, and each below the one before.
fn chain(alloc: Global, classes: u32) -> Result<Hierarchy, NoMemory> {
    let mut headers = Items::new(alloc);
    for row in 0..classes {
        headers.push(header(ClassKind::Class, 1, below(alloc, row)?))?;
    }
    Ok(Hierarchy {
        classes: headers,
        bounds: Items::new(alloc),
    })
}

/// Two in each layer, each below both of the layer before with the same argument.
fn below_both(alloc: Global, layer: u32) -> Result<Items<Supertype>, NoMemory> {
    let mut all = Items::new(alloc);
    if layer > 0 && layer < 1000 {
        all.push(supertype(alloc, 2 * layer - 2, Some(sample(alloc, "p00")?))?)?;
        all.push(supertype(alloc, 2 * layer - 1, Some(sample(alloc, "p00")?))?)?;
    }
    Ok(all)
}

fn layers(alloc: Global, layers: u32) -> Result<Hierarchy, NoMemory> {
    let mut headers = Items::new(alloc);
    for layer in 0..layers {
        headers.push(header(ClassKind::Interface, 1, below_both(alloc, layer)?))?;
        headers.push(header(ClassKind::Interface, 1, below_both(alloc, layer)?))?;
    }
    Ok(Hierarchy {
        classes: headers,
        bounds: Items::new(alloc),
    })
}

/// Whether the lower class is below the upper with the same argument, and not with another, nor the upper below it.
fn is_above(alloc: Global, h: &Hierarchy, low: u32, high: u32) -> Result<bool, Fail> {
    if !classes_end(alloc, h)? {
        return Err(Fail::from("a class is above itself"));
    }
    let below = class(alloc, low, "I")?;
    let above = class(alloc, high, "I")?;
    let other = class(alloc, high, "L")?;
    Ok(
        is_subtype(h, &below, &above)
            && !is_subtype(h, &below, &other)
            && !is_subtype(h, &above, &below),
    )
}

#[test]
fn ten_thousand_supertypes(rt: HostRuntime) -> Result<(), Fail> {
    let h = chain(rt.alloc(), 10_000)?;
    assert!(&rt; is_above(rt.alloc(), &h, 9_999, 0)?);
    Ok(())
}

/// For each number an interface, and a class below the class before and that interface.
fn below_class_and_interface(alloc: Global, number: u32) -> Result<Items<Supertype>, NoMemory> {
    let mut all = Items::new(alloc);
    if number > 0 && number < 1_000_000 {
        all.push(supertype(alloc, 2 * number - 1, None)?)?;
        all.push(supertype(alloc, 2 * number, None)?)?;
    }
    Ok(all)
}

fn chain_with_interfaces(alloc: Global, classes: u32) -> Result<Hierarchy, NoMemory> {
    let mut headers = Items::new(alloc);
    for number in 0..classes {
        headers.push(header(ClassKind::Interface, 0, Items::new(alloc)))?;
        headers.push(header(
            ClassKind::Class,
            0,
            below_class_and_interface(alloc, number)?,
        ))?;
    }
    Ok(Hierarchy {
        classes: headers,
        bounds: Items::new(alloc),
    })
}

/// Whether the last class is below the first, and the first not below the last.
fn is_last_below_first(alloc: Global, h: &Hierarchy, last: u32) -> Result<bool, NoMemory> {
    if classes_end(alloc, h)? {
        let low = KtType::plain(alloc, false, TypeConstructor::Class(last));
        let high = KtType::plain(alloc, false, TypeConstructor::Class(1));
        Ok(is_subtype(h, &low, &high) && !is_subtype(h, &high, &low))
    } else {
        Ok(false)
    }
}

#[test]
fn interface_at_each_supertype(rt: HostRuntime) -> Result<(), Fail> {
    let h = chain_with_interfaces(rt.alloc(), 10_000)?;
    assert!(&rt; is_last_below_first(rt.alloc(), &h, 19_999)?);
    Ok(())
}

#[test]
fn forty_layers(rt: HostRuntime) -> Result<(), Fail> {
    let h = layers(rt.alloc(), 40)?;
    assert!(&rt; is_above(rt.alloc(), &h, 79, 0)?);
    assert!(&rt; is_above(rt.alloc(), &h, 78, 1)?);
    Ok(())
}

/// Classes of which each is below the next, and the last below the first.
fn circle(alloc: Global, classes: u32) -> Result<Hierarchy, NoMemory> {
    let mut headers = Items::new(alloc);
    for row in 0..classes {
        let mut all = Items::new(alloc);
        let next = if row + 1 < classes { row + 1 } else { 0 };
        all.push(supertype(alloc, next, None)?)?;
        headers.push(header(ClassKind::Class, 0, all))?;
    }
    Ok(Hierarchy {
        classes: headers,
        bounds: Items::new(alloc),
    })
}

#[test]
fn circles(rt: HostRuntime) -> Result<(), Fail> {
    for classes in [1, 2, 3, 1000] {
        let h = circle(rt.alloc(), classes)?;
        assert!(&rt; !classes_end(rt.alloc(), &h)?, "{classes}");
    }
    Ok(())
}

/// Rows, to which each leads, and the first that leads back to itself.
fn graphs() -> [(&'static [&'static [u32]], Option<usize>); 6] {
    [
        (&[], None),
        (&[&[1, 2], &[2], &[]], None),
        (&[&[1], &[2], &[1]], Some(1)),
        (&[&[1, 2], &[3], &[3], &[4], &[3, 9]], Some(3)),
        (&[&[], &[0, 1]], Some(1)),
        (&[&[7]], None),
    ]
}

fn graph_of(alloc: Global, rows: &[&'static [u32]]) -> Result<Items<Items<u32>>, NoMemory> {
    let mut graph = Items::new(alloc);
    for row in rows {
        graph.push(Items::from_slice(alloc, *row)?)?;
    }
    Ok(graph)
}

#[test]
fn first_rows_that_lead_back(rt: HostRuntime) -> Result<(), Fail> {
    for (rows, wanted) in graphs() {
        let graph = graph_of(rt.alloc(), rows)?;
        let found = first_on_cycle(rt.alloc(), graph.as_slice())?;
        assert!(&rt; found == wanted);
    }
    Ok(())
}
