//! The tags of a constant pool (JVMS SE 8 §4.4).

ghost use Rattle.jvm_pool_bytes.specs.Raws.{tag_number, tag_of_number};
ghost use Rattle.std.specs.Prelude.{◌≡◌};

use jvm_class_types::constants::{
    CONSTANT_CLASS, CONSTANT_FIELDREF, CONSTANT_INTEGER, CONSTANT_INTERFACE_METHODREF,
    CONSTANT_LONG, CONSTANT_METHODREF, CONSTANT_NAME_AND_TYPE, CONSTANT_STRING, CONSTANT_UTF8,
};

/// The kind of an entry, which its first byte tells.
#[derive(Clone, Copy, Debug, PartialEq, Eq)]
pub enum Tag {
    Utf8,
    Integer,
    Long,
    Class,
    Text,
    Field,
    Method,
    InterfaceMethod,
    NameAndType,
}

impl Tag {
    /// The first byte of such an entry.
    pub fn number(self) -> u8
        ensures { result ≡ tag_number self }
    {
        match self {
            Tag::Utf8 => CONSTANT_UTF8,
            Tag::Integer => CONSTANT_INTEGER,
            Tag::Long => CONSTANT_LONG,
            Tag::Class => CONSTANT_CLASS,
            Tag::Text => CONSTANT_STRING,
            Tag::Field => CONSTANT_FIELDREF,
            Tag::Method => CONSTANT_METHODREF,
            Tag::InterfaceMethod => CONSTANT_INTERFACE_METHODREF,
            Tag::NameAndType => CONSTANT_NAME_AND_TYPE,
        }
    }

    /// The tag that a byte is: `None` exactly where it is none.
    #[tactic(auto, unfolding(crate::specs::Raws::tag_of_number))]
    pub fn of_number(number: u8) -> Option<Tag>
        ensures { result ≡ tag_of_number number }
    {
        match number {
            1 => Some(Tag::Utf8),
            3 => Some(Tag::Integer),
            5 => Some(Tag::Long),
            7 => Some(Tag::Class),
            8 => Some(Tag::Text),
            9 => Some(Tag::Field),
            10 => Some(Tag::Method),
            11 => Some(Tag::InterfaceMethod),
            12 => Some(Tag::NameAndType),
            _ => None,
        }
    }
}
