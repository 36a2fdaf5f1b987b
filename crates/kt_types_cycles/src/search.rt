//! Whether one row leads back to itself, by a search from it.

ghost use Rattle.kt_types_cycles.specs.Search.{IsFirstOnCycle};
ghost use Rattle.kt_types_order.specs.Graph.{HasNoCycle, Reaches, row_or_none};
ghost use Rattle.std.specs.Prelude.{◌≡◌, ◌↔◌, ◌++◌, IfOk, IsTrue, MatchOption, OnOk, slice_get};

use crate::cycles::{has_no_cycle, is_open};
use kt_base::NoMemory;
use sqlite_items::{Items, at};
use std::alloc::Global;

/// Puts the rows to which a row leads behind those that wait.
fn push_links(graph: &[Items<u32>], row: usize, waiting: &mut Vec<usize>) -> Result<(), NoMemory>
    ensures { OnOk result (waiting.new.items ≡ waiting.old.items ++ row_or_none (slice_get graph.now row)) }
{
    match at(graph, row) {
        None => {}
        Some(links) => {
            for link in links.as_slice() {
                waiting.push(*link as usize)?;
            }
        }
    }
    Ok(())
}

/// Whether a row leads back to itself. It takes time in the size of the graph.
pub fn leads_back(alloc: Global, graph: &[Items<u32>], row: usize) -> Result<bool, NoMemory>
    ensures { IfOk result (λ yes. IsTrue yes ↔ Reaches graph.now row row) }
{
    let mut seen = vec![in alloc; false; graph.len()]?;
    let mut waiting = Vec::new(alloc);
    push_links(graph, row, &mut waiting)?;
    loop {
        match waiting.pop() {
            None => return Ok(false),
            Some(next) => {
                if next == row {
                    return Ok(true);
                }
                if is_open(&seen, next) {
                    seen[next] = true;
                    push_links(graph, next, &mut waiting)?;
                }
            }
        }
    }
}

/// The first row that leads back to itself. Where there is none it takes time in the size of the graph, else in that
/// for each row before.
pub fn first_on_cycle(alloc: Global, graph: &[Items<u32>]) -> Result<Option<usize>, NoMemory>
    ensures { IfOk result (λ found. MatchOption found (HasNoCycle graph.now) (IsFirstOnCycle graph.now)) }
{
    if has_no_cycle(alloc, graph)? {
        return Ok(None);
    }
    for row in 0..graph.len() {
        if leads_back(alloc, graph, row)? {
            return Ok(Some(row));
        }
    }
    Ok(None)
}
