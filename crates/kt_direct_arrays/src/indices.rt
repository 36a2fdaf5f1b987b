//! What stands at an index.

ghost use Rattle.kt_direct_values.specs.Forms.{value_form};
ghost use Rattle.kt_meaning.specs.Access as spec;
ghost use Rattle.kt_meaning.specs.BuiltIns as built_ins;
ghost use Rattle.kt_values.specs.Heap.{raise};
ghost use Rattle.kt_values.specs.Throwables.{negative_size};
ghost use Rattle.kt_values.specs.Values.{Shape, Value};
ghost use Rattle.std.specs.Prelude.{◌≡◌, IfSome, List, None, ℕ, map, option_map, pos, true};

use kt_direct_values::DirectValue;

/// An index that isn't below zero.
pub fn index_of(i: i32) -> Option<usize>
    ensures some { IfSome result (λ n. i ≡ pos n) }
    ensures values { result ≡ None → (xs : List Value) → spec.at_index xs i ≡ None }
    ensures units { result ≡ None → (xs : List ℕ) → spec.at_index xs i ≡ None }
    ensures nowhere { result ≡ None → (xs : List Value) → spec.index_in xs i ≡ None }
    ensures outside { result ≡ None → (count : ℕ) → built_ins.is_outside count i ≡ true }
    ensures sizes { result ≡ None → (shape : Shape) (first : Value) →
        built_ins.filled shape first i ≡ raise (negative_size i) }
{
    if i < 0 {
        return None;
    }
    Some(i as usize)
}

/// The value at an index.
pub fn value_at(slots: &[DirectValue], i: i32) -> Option<&DirectValue>
    ensures { option_map (λ x. value_form x.now) result ≡ spec.at_index (map value_form slots.now) i }
{
    match index_of(i) {
        Some(n) => slots.get(n),
        None => None,
    }
}

/// The unit at an index.
pub fn unit_at(units: &[u16], i: i32) -> Option<u16>
    ensures { result ≡ spec.at_index units.now i }
{
    match index_of(i) {
        Some(n) => units.get(n).copied(),
        None => None,
    }
}

/// An index that is there.
pub fn index_in(slots: &[DirectValue], i: i32) -> Option<usize>
    ensures { result ≡ spec.index_in (map value_form slots.now) i }
{
    match index_of(i) {
        Some(n) => match slots.get(n) {
            Some(_) => Some(n),
            None => None,
        },
        None => None,
    }
}
