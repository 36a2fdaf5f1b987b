//! The limits on a unit.

ghost use Rattle.kt_limits.specs.Place.{Judges};
ghost use Rattle.kt_limits.specs.Walking.{walk_unit};
ghost use Rattle.kt_typed.specs.Units.{unit_form};
ghost use Rattle.std.specs.Prelude.{◌≡◌};

use crate::bodies::all_statements;
use crate::headers::all_headers;
use kt_base::{FrontErr, Kind, Pos, Refusal};
use kt_typed::TypedUnit;

/// The nodes of the file's own class, or the place of the first part that passes a limit.
fn walked(unit: &TypedUnit) -> Result<u64, Pos>
    ensures { result ≡ walk_unit (unit_form unit.now) }
{
    let count = all_headers(&unit.headers)?;
    all_statements(unit, count)
}

/// Whether a unit is within the limits of the language. It takes no memory.
///
/// It is refused for its size exactly where it passes a limit: at the first header in text order, members included,
/// such that the headers up to and with it do; where none does, at the first direct statement in text order such that
/// the unit that is cut behind it does.
#[tactic(auto, using(crate::proofs::Answered::within, crate::proofs::Answered::refused))]
pub fn check_size(unit: &TypedUnit) -> Result<(), FrontErr>
    ensures { Judges result (unit_form unit.now) }
{
    match walked(unit) {
        Ok(_nodes) => Ok(()),
        Err(pos) => Err(FrontErr::Refused(Refusal {
            kind: Kind::Size,
            pos,
        })),
    }
}
