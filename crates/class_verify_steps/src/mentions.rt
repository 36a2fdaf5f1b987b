//! What the entries of a constant pool that instructions mention stand for.

ghost use Rattle.class_verify_frames.specs.Views.{body};
ghost use Rattle.class_verify_rules.specs.Bodies.{class_named, constant_at, field_named, interface_method_named};
ghost use Rattle.class_verify_rules.specs.Bodies.{meant, method_named};
ghost use Rattle.std.specs.Prelude.{◌≡◌, option_copied};

use class_linked::{Constant, FieldMention, Linked, LinkedMethod, MethodMention};
use class_verify_frames::Body;
use sqlite_items::at;

/// The class that an entry names.
pub fn class_mention(method: &Body, index: u16) -> Option<usize>
    ensures { result ≡ class_named (constant_at (body method.now) index) }
{
    match at(method.constants, index as usize) {
        None => None,
        Some(constant) => match constant {
            Constant::Class(class) => Some(*class),
            Constant::Nothing
            | Constant::Int(_)
            | Constant::Long(_)
            | Constant::Text(_)
            | Constant::Field(_)
            | Constant::Method(_)
            | Constant::InterfaceMethod(_) => None,
        },
    }
}

/// The field that an entry names.
pub fn field_mention(method: &Body, index: u16) -> Option<FieldMention>
    ensures { result ≡ field_named (constant_at (body method.now) index) }
{
    match at(method.constants, index as usize) {
        None => None,
        Some(constant) => match constant {
            Constant::Field(field) => Some(*field),
            Constant::Nothing
            | Constant::Int(_)
            | Constant::Long(_)
            | Constant::Text(_)
            | Constant::Class(_)
            | Constant::Method(_)
            | Constant::InterfaceMethod(_) => None,
        },
    }
}

/// The method of a class that an entry names.
pub fn method_mention(method: &Body, index: u16) -> Option<MethodMention>
    ensures { result ≡ method_named (constant_at (body method.now) index) }
{
    match at(method.constants, index as usize) {
        None => None,
        Some(constant) => match constant {
            Constant::Method(mention) => Some(*mention),
            Constant::Nothing
            | Constant::Int(_)
            | Constant::Long(_)
            | Constant::Text(_)
            | Constant::Class(_)
            | Constant::Field(_)
            | Constant::InterfaceMethod(_) => None,
        },
    }
}

/// The method of an interface that an entry names.
pub fn interface_mention(method: &Body, index: u16) -> Option<MethodMention>
    ensures { result ≡ interface_method_named (constant_at (body method.now) index) }
{
    match at(method.constants, index as usize) {
        None => None,
        Some(constant) => match constant {
            Constant::InterfaceMethod(mention) => Some(*mention),
            Constant::Nothing
            | Constant::Int(_)
            | Constant::Long(_)
            | Constant::Text(_)
            | Constant::Class(_)
            | Constant::Field(_)
            | Constant::Method(_) => None,
        },
    }
}

/// The method that a mention means.
pub fn meant_method(program: &Linked, mention: MethodMention) -> Option<&LinkedMethod>
    ensures { option_copied result ≡ meant program.now mention }
{
    match at(program.classes.as_slice(), mention.owner) {
        None => None,
        Some(class) => at(class.methods.as_slice(), mention.place),
    }
}
