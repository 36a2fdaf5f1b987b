//! Which rows of a graph have no row that leads back to itself at or above them.

ghost use Rattle.kt_decls_grounded.specs.Grounded.{IsGroundedIn, IsStuck};
ghost use Rattle.kt_types.specs.Kinds.{flag};
ghost use Rattle.kt_types_cycles.specs.Settled.{AreLinksDone, IsOpenLink, IsSettled, open_count};
ghost use Rattle.kt_types_order.specs.Graph.{row_or_none};
ghost use Rattle.std.specs.Prelude.{ℕ, ◌≡◌, ◌<◌, ◌↔◌, length, slice_get, IfOk, IsTrue, MatchOption, true, false};

use kt_base::NoMemory;
use kt_types_cycles::cycles::is_open;
use sqlite_items::{Items, at};
use std::alloc::Global;

/// The first of several rows that isn't done.
fn open_link(links: &[u32], done: &[bool]) -> Option<u32>
    ensures { MatchOption result (AreLinksDone links.now done.now) (IsOpenLink links.now done.now) }
{
    for row in links {
        if is_open(done, *row as usize) {
            return Some(*row);
        }
    }
    None
}

/// The first row to which a row leads and that isn't done.
fn open_link_of(graph: &[Items<u32>], row: usize, done: &[bool]) -> Option<u32>
    ensures { MatchOption result (AreLinksDone (row_or_none (slice_get graph.now row)) done.now)
        (IsOpenLink (row_or_none (slice_get graph.now row)) done.now) }
{
    match at(graph, row) {
        None => None,
        Some(links) => open_link(links.as_slice(), done),
    }
}

/// Marks a row, where all to which it leads are marked and it isn't yet; says whether it did.
fn settle(graph: &[Items<u32>], done: &mut Vec<bool>, row: usize) -> bool
    requires settled { IsSettled graph.now done.old.items }
    requires long { length done.old.items ≡ length graph.now }
    ensures settled { IsSettled graph.now done.new.items }
    ensures long { length done.new.items ≡ length graph.now }
    ensures fewer { result ≡ true → open_count done.new.items < open_count done.old.items }
    ensures same { result ≡ false → done.new.items ≡ done.old.items }
    ensures stuck { result ≡ false → IsStuck graph.now done.old.items row }
{
    if is_open(done, row) {
        match open_link_of(graph, row, done) {
            Some(_next) => false,
            None => {
                done[row] = true;
                true
            }
        }
    } else {
        false
    }
}

/// Goes over all rows once; says whether one was marked.
fn round(graph: &[Items<u32>], done: &mut Vec<bool>) -> bool
    requires settled { IsSettled graph.now done.old.items }
    requires long { length done.old.items ≡ length graph.now }
    ensures settled { IsSettled graph.now done.new.items }
    ensures long { length done.new.items ≡ length graph.now }
    ensures fewer { result ≡ true → open_count done.new.items < open_count done.old.items }
    ensures stuck { result ≡ false → (row : ℕ) → row < length graph.now → IsStuck graph.now done.new.items row }
{
    let mut changed = false;
    for row in 0..graph.len() {
        if settle(graph, done, row) {
            changed = true;
        }
    }
    changed
}

/// For each row, whether no row at or above it leads back to itself. Where each row leads to earlier ones it takes time
/// in the size of the graph.
pub fn grounded_rows(alloc: Global, graph: &[Items<u32>]) -> Result<Vec<bool>, NoMemory>
    ensures { IfOk result (λ done. (row : ℕ) → row < length graph.now →
        IsTrue (flag done.items row) ↔ IsGroundedIn graph.now row) }
{
    let mut done = vec![in alloc; false; graph.len()]?;
    'rounds: loop {
        if !round(graph, &mut done) {
            return Ok(done);
        }
    }
}
