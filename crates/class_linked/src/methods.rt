//! Methods.

use crate::code::LinkedCode;
use crate::kinds::ValueKind;
use jvm_class_types::MethodFlags;
use sqlite_items::Items;

/// Where a method is declared: the number of the class, and the place among its own methods.
#[derive(Clone, Copy)]
pub struct MethodPlace {
    pub class: usize,
    pub place: usize,
}

/// What a method's name says of it.
#[derive(Clone, Copy)]
pub enum Role {
    /// A constructor: `<init>`.
    Constructor,
    /// The body of a continuation: `invokeSuspend()Ljava/lang/Object;`.
    Resumption,
    /// Any other.
    Ordinary,
}

/// How the method that a call runs is found in the class of the receiver.
#[derive(Clone, Copy)]
pub enum Selector {
    /// In its table of methods.
    Slot(usize),
    /// Among the methods that stand for those of an interface.
    Face(usize, usize),
}

/// A method.
#[derive(Drop)]
pub struct LinkedMethod {
    pub flags: MethodFlags,
    pub role: Role,
    /// Without the receiver.
    pub parameters: Items<ValueKind>,
    /// `None` where it gives no value.
    pub result: Option<ValueKind>,
    /// How an overriding method is found: `None` for a static one and a constructor.
    pub selector: Option<Selector>,
    /// `None` for an abstract method, and for a method that the machine has without code.
    pub code: Option<LinkedCode>,
}
