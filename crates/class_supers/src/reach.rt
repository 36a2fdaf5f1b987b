//! What a row reaches, by a search from it.

ghost use Rattle.class_supers.specs.Graph.{AreAllSupers, AreSupers, row_or_none};
ghost use Rattle.class_supers.specs.Search.{IsReached, mark_at, marked_below, when};
ghost use Rattle.std.specs.Prelude.{◌≡◌, ◌↔◌, ◌<◌, ◌++◌, IfOk, IsTrue, OnOk, Some, false, length, slice_get};

use kt_base::NoMemory;
use sqlite_items::{Items, at};
use std::alloc::Global;

/// Whether a row is there and not marked.
fn is_open(seen: &[bool], row: usize) -> bool
    ensures { IsTrue result ↔ (slice_get seen.now row ≡ Some false) }
{
    match at(seen, row) {
        Some(false) => true,
        _ => false,
    }
}

/// Puts the rows to which a row leads behind those that wait.
fn push_links(graph: &[Items<usize>], row: usize, waiting: &mut Vec<usize>) -> Result<(), NoMemory>
    ensures { OnOk result (waiting.new.items ≡ waiting.old.items ++ row_or_none (slice_get graph.now row)) }
{
    match at(graph, row) {
        None => {}
        Some(links) => {
            for link in links.as_slice() {
                waiting.push(*link)?;
            }
        }
    }
    Ok(())
}

/// For each row whether another reaches it.
fn reached(alloc: Global, graph: &[Items<usize>], start: usize) -> Result<Vec<bool>, NoMemory>
    requires { start < length graph.now }
    ensures { IfOk result (λ seen. IsReached graph.now start seen.items) }
{
    let mut seen = vec![in alloc; false; graph.len()]?;
    let mut waiting = Vec::new(alloc);
    waiting.push(start)?;
    loop {
        match waiting.pop() {
            None => return Ok(seen),
            Some(next) => {
                if is_open(&seen, next) {
                    seen[next] = true;
                    push_links(graph, next, &mut waiting)?;
                }
            }
        }
    }
}

/// Whether a row is there and marked.
fn is_marked(seen: &[bool], row: usize) -> bool
    ensures { result ≡ mark_at (slice_get seen.now row) }
{
    match at(seen, row) {
        Some(mark) => *mark,
        None => false,
    }
}

fn push_if(row: &mut Items<usize>, mark: bool, number: usize) -> Result<(), NoMemory>
    ensures { OnOk result (row.new ≡ row.old ++ when mark number) }
{
    if mark {
        row.push(number)?;
    }
    Ok(())
}

/// The places of what is true, in order.
#[tactic(auto, using(crate::proofs::Rows::below_next))]
fn marked(alloc: Global, seen: &[bool]) -> Result<Items<usize>, NoMemory>
    ensures { IfOk result (λ row. row ≡ marked_below (length seen.now) seen.now) }
{
    let mut row = Items::new(alloc);
    for i in 0..seen.len() {
        push_if(&mut row, is_marked(seen, i), i)?;
    }
    Ok(row)
}

/// The rows that a row reaches, itself among them, ascending.
#[tactic(auto, using(crate::proofs::Rows::supers_marked))]
pub fn supers_of(
    alloc: Global,
    graph: &[Items<usize>],
    start: usize,
) -> Result<Items<usize>, NoMemory>
    requires { start < length graph.now }
    ensures { IfOk result (λ row. AreSupers graph.now start row) }
{
    let seen = reached(alloc, graph, start)?;
    marked(alloc, seen.as_slice())
}

/// The rows that each row reaches. It takes time in the square of the number of rows, and in the size of the graph for
/// each.
pub fn all_supers(alloc: Global, graph: &[Items<usize>]) -> Result<Items<Items<usize>>, NoMemory>
    ensures { IfOk result (λ rows. AreAllSupers graph.now rows) }
{
    let mut rows = Items::new(alloc);
    for start in 0..graph.len() {
        rows.push(supers_of(alloc, graph, start)?)?;
    }
    Ok(rows)
}
