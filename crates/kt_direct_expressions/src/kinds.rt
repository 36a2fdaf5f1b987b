//! What decides the text of a value, and what it equals.

ghost use Rattle.kt_direct_expressions.specs.Called.{IsDecided};
ghost use Rattle.kt_direct_values.specs.Forms.{value_form};
ghost use Rattle.std.specs.Prelude.{◌≡◌, [], ◌∷◌, MatchOption};

use kt_direct_values::{DirectShape, DirectValue};

/// What decides the text of a value, and what it equals.
#[derive(Clone, Copy, Debug, PartialEq, Eq)]
pub enum Decider {
    /// The functions of a class: its row, and the place of the object.
    Object(u32, usize),
    /// The name of an entry of an enum.
    Entry,
    /// The value itself.
    Basic,
}

/// What decides the text of a value, and what it equals.
#[tactic(auto, using(kt_direct_frames::proofs::Binding::text_there))]
pub fn decided_by(x: &DirectValue) -> Decider
    ensures { IsDecided result (value_form x.now) }
{
    match x {
        DirectValue::Reference(shape, place) => match shape {
            DirectShape::Instance(c) => Decider::Object(*c, *place),
            DirectShape::Numbers => Decider::Basic,
            DirectShape::Elements => Decider::Basic,
            DirectShape::Variable => Decider::Basic,
        },
        DirectValue::Entry(_, _) => Decider::Entry,
        DirectValue::Int(_) => Decider::Basic,
        DirectValue::Long(_) => Decider::Basic,
        DirectValue::Truth(_) => Decider::Basic,
        DirectValue::Character(_) => Decider::Basic,
        DirectValue::Text(_) => Decider::Basic,
        DirectValue::Null => Decider::Basic,
        DirectValue::Unit => Decider::Basic,
        DirectValue::Cell(_) => Decider::Basic,
        DirectValue::Closure(_, _) => Decider::Basic,
    }
}

/// The first of several, and the others.
pub fn split<T>(all: &[T]) -> Option<(&T, &[T])>
    ensures { MatchOption result (all.now ≡ []) (λ both. all.now ≡ both.0.now ∷ both.1.now) }
{
    match all {
        [] => None,
        [first, rest @ ..] => Some((first, rest)),
    }
}
