//! The first entry one of whose parts isn't of its kind.

ghost use Rattle.jvm_pool_bytes.specs.Reading as reading;
ghost use Rattle.jvm_pool_bytes.specs.Reading.{raws_of};
ghost use Rattle.jvm_pool_reader.specs.JudgedSoFar.{misfit};
ghost use Rattle.std.specs.Prelude.{◌≡◌, slice_get, IfOk};

use crate::kinds::fits;
use crate::raws::Raws;
use kt_base::NoMemory;
use std::alloc::Global;

/// The offset of the entry at a position, where one of its parts isn't of its kind.
fn misfit_at(
    raws: &Raws,
    alloc: Global,
    count: u32,
    position: usize,
) -> Result<Option<u64>, NoMemory>
    ensures { IfOk result (λ at. at ≡ misfit (raws_of raws.now) count (slice_get raws.now position)) }
{
    match raws.at(position) {
        Some((offset, raw)) => {
            if fits(raws, alloc, count, raw)? {
                Ok(None)
            } else {
                Ok(Some(offset))
            }
        }
        None => Ok(None),
    }
}

/// The offset of the first entry one of whose parts isn't of its kind.
pub fn first_misfit(raws: &Raws, alloc: Global, count: u32) -> Result<Option<u64>, NoMemory>
    ensures { IfOk result (λ at. at ≡ reading.first_misfit (raws_of raws.now) count raws.now) }
{
    for position in 0..raws.len() {
        let found = misfit_at(raws, alloc, count, position)?;
        if found.is_some() {
            return Ok(found);
        }
    }
    Ok(None)
}
