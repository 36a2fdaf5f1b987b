//! The kinds of entries that instructions mention (JVMS SE 8 §6.5).

ghost use Rattle.jvm_class_grammar.specs.Kinds.{is_of, kind_of_opcode, text_is};
ghost use Rattle.std.specs.Prelude.{◌≡◌, codes};

use jvm_pool::Entry;

/// The kind of entry that an instruction needs at its index.
#[derive(Clone, Copy, Debug, PartialEq, Eq)]
pub enum EntryKind {
    /// An `int` or a constant of type `String`.
    Loaded,
    /// A `long`.
    Long,
    /// A field.
    Field,
    /// A method of a class.
    Method,
    /// A class.
    Class,
    /// The class `java/lang/Object`.
    ObjectClass,
}

impl EntryKind {
    /// The kind that an opcode needs at its two-byte index: `None` for one that has no such index. What
    /// *invokeinterface* mentions depends on its count too.
    #[tactic(auto, unfolding(crate::specs::Kinds::kind_of_opcode))]
    pub fn of_opcode(opcode: u8) -> Option<EntryKind>
        ensures { result ≡ kind_of_opcode opcode }
    {
        match opcode {
            0x13 => Some(EntryKind::Loaded),
            0x14 => Some(EntryKind::Long),
            0xB4 | 0xB5 => Some(EntryKind::Field),
            0xB6 | 0xB7 | 0xB8 => Some(EntryKind::Method),
            0xBB | 0xC0 | 0xC1 => Some(EntryKind::Class),
            0xBD => Some(EntryKind::ObjectClass),
            _ => None,
        }
    }

    /// Whether an entry is of the kind.
    pub fn has(self, e: &Entry) -> bool
        ensures { result ≡ is_of self e.now }
    {
        match (self, e) {
            (EntryKind::Loaded, Entry::Int(_)) => true,
            (EntryKind::Loaded, Entry::Text(_)) => true,
            (EntryKind::Long, Entry::Long(_)) => true,
            (EntryKind::Field, Entry::Field(_, _, _)) => true,
            (EntryKind::Method, Entry::Method(_, _, _)) => true,
            (EntryKind::Class, Entry::Class(_)) => true,
            (EntryKind::ObjectClass, Entry::Class(name)) => is_object(name.as_bytes()),
            _ => false,
        }
    }
}

/// Whether a name is `java/lang/Object`.
fn is_object(name: &[u8]) -> bool
    ensures { result ≡ text_is (codes "java/lang/Object") name.now }
{
    name == b"java/lang/Object".as_slice()
}
