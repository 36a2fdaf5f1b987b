//! What is known of a class.

ghost use Rattle.mach_settling.specs.Settled as spec;
ghost use Rattle.std.specs.Option.{option_copied};
ghost use Rattle.std.specs.Prelude.{◌≡◌};

use kt_base::Name;
use mach_value::{ClassName, Field, FieldKind};
use sqlite_items::Items;

/// What is known of a class.
#[derive(Drop)]
pub struct Shape {
    pub class: ClassName,
    /// Its number among the linked classes.
    pub number: usize,
    /// It is `java/lang/Throwable` or below it.
    pub is_throwable: bool,
    /// The kinds of what the lump of an object of it holds: of a throwable the message first, then the fields, those of
    /// the class above first.
    pub kinds: Items<FieldKind>,
}

/// Whether a class has a name.
fn is_named(shape: &Shape, name: &Name) -> bool
    ensures { result ≡ spec.is_named name.now shape.now }
{
    shape.class.name() == name
}

/// The first class of a name.
pub fn shape_of<'a>(shapes: &'a [Shape], name: &Name) -> Option<&'a Shape>
    ensures { option_copied result ≡ spec.shape_of shapes.now name.now }
{
    shapes.iter().find(|shape| is_named(shape, name))
}

/// The kind that a class gives to what stands at a place; its own where it gives none.
pub fn kind_at(kinds: &[FieldKind], at: usize, field: Field) -> FieldKind
    ensures { result ≡ spec.kind_at kinds.now at field }
{
    match kinds.get(at) {
        Some(kind) => *kind,
        None => field.kind,
    }
}
