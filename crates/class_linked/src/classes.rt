//! Classes.

use crate::constants::Constant;
use crate::kinds::ValueKind;
use crate::methods::{LinkedMethod, MethodPlace};
use jvm_class_types::ClassFlags;
use kt_base::Name;
use sqlite_items::Items;

/// A field of an object.
#[derive(Clone, Copy)]
pub struct LinkedField {
    /// The class that declares it.
    pub owner: usize,
    pub kind: ValueKind,
    pub is_final: bool,
}

/// The methods of a class that stand for those of an interface above it.
#[derive(Drop)]
pub struct Face {
    pub interface: usize,
    /// For each method that the interface declares the one that is run.
    pub methods: Items<MethodPlace>,
}

/// A class, an interface or an array class.
#[derive(Drop)]
pub struct LinkedClass {
    pub name: Name,
    pub flags: ClassFlags,
    /// The class directly above: `None` for `java/lang/Object` alone.
    pub above: Option<usize>,
    /// The interfaces directly above.
    pub interfaces: Items<usize>,
    /// Every class that this one is below, and itself, ascending.
    pub supers: Items<usize>,
    /// The fields of an object, those of the class above first.
    pub fields: Items<LinkedField>,
    /// The methods that it declares.
    pub methods: Items<LinkedMethod>,
    /// The methods that are found by a slot, those of the class above first.
    pub table: Items<MethodPlace>,
    /// The methods that are found by an interface.
    pub faces: Items<Face>,
    /// What each index of its constant pool stands for.
    pub constants: Items<Constant>,
}

/// All classes: those of the machine, the two of arrays, and those of class files.
#[derive(Drop)]
pub struct Linked {
    pub classes: Items<LinkedClass>,
}
