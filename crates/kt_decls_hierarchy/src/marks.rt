//! Which rows of a graph are marked, or lead to one that is.

ghost use Rattle.kt_decls_hierarchy.specs.Marks.{marked};
ghost use Rattle.kt_decls_hierarchy.specs.Marking.{IsClosed, IsMarking, is_due};
ghost use Rattle.kt_types.specs.Kinds.{flag};
ghost use Rattle.kt_types_cycles.specs.Settled.{open_count};
ghost use Rattle.kt_types_order.specs.Graph.{row_or_none};
ghost use Rattle.std.specs.List.{list_any};
ghost use Rattle.std.specs.Prelude.{ℕ, ◌≡◌, ◌<◌, length, slice_get, slice_set, Some, true, false, IfOk};

use kt_base::NoMemory;
use kt_types_cycles::cycles::is_open;
use sqlite_items::{Items, at};
use std::alloc::Global;

/// What the flags say of a row.
pub fn flag_of(flags: &[bool], row: usize) -> bool
    ensures { result ≡ flag flags.now row }
{
    match at(flags, row) {
        Some(set) => *set,
        None => false,
    }
}

/// Whether one of several rows is marked.
fn any_marked(links: &[u32], marks: &[bool]) -> bool
    ensures { result ≡ list_any (flag marks.now) links.now }
{
    for row in links {
        if flag_of(marks, *row as usize) {
            return true;
        }
    }
    false
}

/// Whether a row leads at once to one that is marked.
fn leads_to_marked(graph: &[Items<u32>], marks: &[bool], row: usize) -> bool
    ensures { result ≡ list_any (flag marks.now) (row_or_none (slice_get graph.now row)) }
{
    match at(graph, row) {
        Some(links) => any_marked(links.as_slice(), marks),
        None => false,
    }
}

/// Whether a row is to be marked.
fn is_to_mark(graph: &[Items<u32>], own: &[bool], marks: &[bool], row: usize) -> bool
    ensures { result ≡ is_due graph.now own.now marks.now row }
{
    flag_of(own, row) || leads_to_marked(graph, marks, row)
}

/// Marks a row, where it is to be and isn't yet; says whether it did.
fn mark(graph: &[Items<u32>], own: &[bool], marks: &mut Vec<bool>, row: usize) -> bool
    requires marking { IsMarking graph.now own.now marks.old.items }
    ensures marking { IsMarking graph.now own.now marks.new.items }
    ensures fewer { result ≡ true → open_count marks.new.items < open_count marks.old.items }
    ensures same { result ≡ false → marks.new.items ≡ marks.old.items }
    ensures closed { result ≡ false → IsClosed graph.now own.now marks.old.items row }
{
    if is_open(marks, row) && is_to_mark(graph, own, marks, row) {
        marks[row] = true;
        true
    } else {
        false
    }
}

/// Goes over all rows once; says whether one was marked.
fn round(graph: &[Items<u32>], own: &[bool], marks: &mut Vec<bool>) -> bool
    requires marking { IsMarking graph.now own.now marks.old.items }
    ensures marking { IsMarking graph.now own.now marks.new.items }
    ensures fewer { result ≡ true → open_count marks.new.items < open_count marks.old.items }
    ensures closed { result ≡ false → (row : ℕ) → row < length graph.now →
        IsClosed graph.now own.now marks.new.items row }
{
    let mut changed = false;
    for row in 0..graph.len() {
        if mark(graph, own, marks, row) {
            changed = true;
        }
    }
    changed
}

/// Which rows are marked, or lead to one that is by any number of steps. Where each row leads to earlier ones it takes
/// time in the size of the graph.
pub fn marks_above(alloc: Global, graph: &[Items<u32>], own: &[bool]) -> Result<Vec<bool>, NoMemory>
    requires { length own.now ≡ length graph.now }
    ensures { IfOk result (λ marks. (row : ℕ) → flag marks.items row ≡ marked graph.now own.now row) }
{
    let mut marks = vec![in alloc; false; graph.len()]?;
    'rounds: loop {
        if !round(graph, own, &mut marks) {
            return Ok(marks);
        }
    }
}
