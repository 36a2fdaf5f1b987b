//! The check that no row of a graph leads back to itself. It takes time in the size of the graph.

ghost use Rattle.kt_types_cycles.specs.Settled.{AreLinksDone, IsDone, IsOpenLink, IsSettled};
ghost use Rattle.kt_types_order.specs.Graph.{BoundsEnd, ClassesEnd, HasNoCycle, row_or_none};
ghost use Rattle.kt_types_tree.specs.Hierarchy.{hierarchy_form};
ghost use Rattle.std.specs.Prelude.{ℕ, ◌≡◌, ◌↔◌, IfOk, IsTrue, MatchOption, OnOk, Some, false, slice_get};

use crate::links::{bound_links, class_links};
use kt_base::NoMemory;
use kt_types_tree::Hierarchy;
use sqlite_items::{Items, at};
use std::alloc::Global;

/// Whether a row is there and not marked.
pub fn is_open(done: &[bool], row: usize) -> bool
    ensures { IsTrue result ↔ (slice_get done.now row ≡ Some false) }
{
    match at(done, row) {
        Some(false) => true,
        _ => false,
    }
}

/// The first of several rows that isn't done.
fn open_link(links: &[u32], done: &[bool]) -> Option<usize>
    ensures { MatchOption result (AreLinksDone links.now done.now) (IsOpenLink links.now done.now) }
{
    for row in links {
        if is_open(done, *row as usize) {
            return Some(*row as usize);
        }
    }
    None
}

/// The first row to which a row leads and that isn't done.
fn open_link_of(graph: &[Items<u32>], row: usize, done: &[bool]) -> Option<usize>
    ensures { MatchOption result (AreLinksDone (row_or_none (slice_get graph.now row)) done.now)
        (IsOpenLink (row_or_none (slice_get graph.now row)) done.now) }
{
    match at(graph, row) {
        None => None,
        Some(links) => open_link(links.as_slice(), done),
    }
}

/// Marks a row and those that it leads to, where they come to an end.
fn settle(
    alloc: Global,
    graph: &[Items<u32>],
    done: &mut Vec<bool>,
    first: usize,
) -> Result<bool, NoMemory>
    requires settled { IsSettled graph.now done.old.items }
    requires open { slice_get done.old.items first ≡ Some false }
    ensures settled { OnOk result (IsSettled graph.now done.new.items) }
    ensures first { IfOk result (λ yes. IsTrue yes → IsDone done.new.items first) }
    ensures kept { OnOk result ((c : ℕ) → IsDone done.old.items c → IsDone done.new.items c) }
    ensures cycle { IfOk result (λ yes. yes ≡ false → HasNoCycle graph.now → ⊥) }
{
    let mut waiting = Vec::new(alloc);
    let mut row = first;
    loop {
        match open_link_of(graph, row, done) {
            Some(next) => {
                waiting.push(row)?;
                if waiting.len() > graph.len() {
                    return Ok(false);
                }
                row = next;
            }
            None => {
                done[row] = true;
                match waiting.pop() {
                    Some(before) => row = before,
                    None => return Ok(true),
                }
            }
        }
    }
}

/// Whether no row leads back to itself.
pub fn has_no_cycle(alloc: Global, graph: &[Items<u32>]) -> Result<bool, NoMemory>
    ensures { IfOk result (λ yes. IsTrue yes ↔ HasNoCycle graph.now) }
{
    let mut done = vec![in alloc; false; graph.len()]?;
    for first in 0..graph.len() {
        if is_open(&done, first) && !settle(alloc, graph, &mut done, first)? {
            return Ok(false);
        }
    }
    Ok(true)
}

/// Whether no class is above itself.
pub fn classes_end(alloc: Global, h: &Hierarchy) -> Result<bool, NoMemory>
    ensures { IfOk result (λ yes. IsTrue yes ↔ ClassesEnd (hierarchy_form h.now)) }
{
    let graph = class_links(alloc, h)?;
    has_no_cycle(alloc, graph.as_slice())
}

/// Whether no bound of a type parameter leads back to itself.
pub fn bounds_end(alloc: Global, h: &Hierarchy) -> Result<bool, NoMemory>
    ensures { IfOk result (λ yes. IsTrue yes ↔ BoundsEnd (hierarchy_form h.now)) }
{
    let graph = bound_links(alloc, h)?;
    has_no_cycle(alloc, graph.as_slice())
}
