//! Classes and their members, by name.

use jvm_class_types::{ClassFlags, FieldFlags, MethodFlags};
use kt_base::Name;
use sqlite_items::Items;

/// A field (JVMS SE 8 §4.5).
#[derive(Drop)]
pub struct FieldHeader {
    pub flags: FieldFlags,
    pub name: Items<u8>,
    pub descriptor: Items<u8>,
}

/// A method, without its code (JVMS SE 8 §4.6).
#[derive(Drop)]
pub struct MethodHeader {
    pub flags: MethodFlags,
    pub name: Items<u8>,
    pub descriptor: Items<u8>,
}

/// A class, an interface or an array class: its place in the hierarchy, and its own members.
#[derive(Drop)]
pub struct Header {
    pub name: Name,
    pub flags: ClassFlags,
    /// The name of the class directly above: `None` for `java/lang/Object` alone.
    pub above: Option<Items<u8>>,
    /// The names of the interfaces directly above.
    pub interfaces: Items<Items<u8>>,
    pub fields: Items<FieldHeader>,
    pub methods: Items<MethodHeader>,
}
