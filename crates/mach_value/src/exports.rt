//! What leaves a heap.

ghost use Rattle.mach_value.specs.Exports.{HasNoLump, IsLump, held};
ghost use Rattle.mach_value.specs.Paths.{is_on};
ghost use Rattle.mach_value.specs.declared.exporting.Pending.TheVariants.{Enter};
ghost use Rattle.mach_value.specs.declared.exports.ExportErr.TheVariants as error;
ghost use Rattle.std.specs.Prelude.{◌≡◌, ℕ, [], ◌∷◌, false, IfErr, IfOk};

use crate::exporting::{Pending, Progress, advance};
use crate::heaps::Heap;
use crate::path::Path;
use crate::stack::Stack;
use crate::values::{Field, Value};
use kt_base::{Lump, NoMemory};
use std::alloc::Global;
use thiserror::Error;

/// Why a value doesn't leave its heap.
#[derive(Clone, Copy, Debug, PartialEq, Eq, Drop, Error)]
pub enum ExportErr {
    /// It is an array or an object with a field that isn't final, it holds such a one, or it leads back to itself.
    #[error("not shareable")]
    NotShareable,
    #[error("out of memory")]
    NoMemory,
}

impl From<NoMemory> for ExportErr {
    ghost from_gives = { λ _ e. e ≡ error.NoMemory };

    fn from(_: NoMemory) -> ExportErr {
        ExportErr::NoMemory
    }
}

/// The lump of a value (a copy of it without references), as it goes to another coroutine.
///
/// `NotShareable` comes exactly where it has none.
pub fn export(alloc: Global, heap: &Heap, value: Value) -> Result<Lump, ExportErr>
    ensures lump { IfOk result (λ lump. IsLump heap.now.objects value lump) }
    ensures refused { IfErr result (λ e. e ≡ error.NotShareable → HasNoLump heap.now.objects value) }
{
    let mut progress = start(alloc, value)?;
    while let Some(next) = progress.pending.pop() {
        advance(alloc, &heap.objects, next, &mut progress)?;
    }
    Ok(Lump::of(progress.nodes))
}

/// Nothing is written yet.
fn start(alloc: Global, value: Value) -> Result<Progress, NoMemory>
    ensures nodes { IfOk result (λ p. p.nodes.items ≡ []) }
    ensures pending { IfOk result (λ p. p.pending ≡ Enter (held value) ∷ []) }
    ensures path { IfOk result (λ p. (a : ℕ) → is_on p.path a ≡ false) }
{
    let mut pending = Stack::new(alloc);
    pending.push(Pending::Enter(Field::held(value)))?;
    Ok(Progress {
        nodes: Vec::new(alloc),
        path: Path::new(alloc),
        pending,
    })
}
