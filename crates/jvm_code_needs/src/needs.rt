//! The entry that an instruction mentions (JVMS SE 8 §6.5).

ghost use Rattle.jvm_code_needs.specs.Needs.{wants};
ghost use Rattle.jvm_class_grammar.specs.Kinds.{is_called, kind_of_opcode, needed};
ghost use Rattle.jvm_code_instructions.specs.Table.{row_of};
ghost use Rattle.jvm_code_opcodes.specs.Opcodes.{field_op_code, invoke_op_code};
ghost use Rattle.std.specs.Prelude.{◌≡◌, option_map, Some};

use jvm_class_grammar::EntryKind;
use jvm_class_start::argument_units;
use jvm_code::Instr;
use jvm_code_opcodes::{FieldOp, InvokeOp};
use jvm_pool::Entry;

/// What an instruction needs of the entry that it mentions.
#[derive(Clone, Copy, Debug, PartialEq, Eq)]
pub enum Need {
    /// An entry of this kind.
    Kind(EntryKind),
    /// A method of an interface whose arguments, with the receiver, take so many units.
    Called(u8),
}

impl Need {
    /// Whether an entry is what is needed.
    pub fn is_met(self, e: &Entry) -> bool
        ensures { result ≡ wants self e.now }
    {
        match self {
            Need::Kind(kind) => kind.has(e),
            Need::Called(count) => is_called(count, e),
        }
    }
}

/// Whether an entry is a method of an interface whose arguments, with the receiver, take so many units.
fn is_called(count: u8, e: &Entry) -> bool
    ensures { result ≡ is_called count e.now }
{
    match e {
        Entry::InterfaceMethod(_, _, descriptor) => {
            u64::from(count) == 1 + argument_units(descriptor.as_bytes())
        }
        _ => false,
    }
}

/// The kind of entry that an access to a field needs.
#[tactic(auto, unfolding(jvm_class_grammar::specs::Kinds::kind_of_opcode))]
fn kind_of_field(op: FieldOp) -> EntryKind
    ensures { kind_of_opcode (field_op_code op) ≡ Some result }
{
    match op {
        FieldOp::Getfield | FieldOp::Putfield => EntryKind::Field,
    }
}

/// The kind of entry that a call needs.
#[tactic(auto, unfolding(jvm_class_grammar::specs::Kinds::kind_of_opcode))]
fn kind_of_call(op: InvokeOp) -> EntryKind
    ensures { kind_of_opcode (invoke_op_code op) ≡ Some result }
{
    match op {
        InvokeOp::Invokevirtual | InvokeOp::Invokespecial | InvokeOp::Invokestatic =>
            EntryKind::Method,
    }
}

/// The index of the entry that an instruction mentions, and what it needs of that: `None` exactly where it mentions
/// none.
#[tactic(auto, unfolding(jvm_class_grammar::specs::Kinds::kind_of_opcode))]
pub fn need_of(instr: &Instr) -> Option<(u16, Need)>
    ensures { option_map (λ x. (x.0, wants x.1)) result
        ≡ needed (row_of instr.now).opcode (row_of instr.now).operands }
{
    match instr {
        Instr::LdcW { index } => Some((*index, Need::Kind(EntryKind::Loaded))),
        Instr::Ldc2W { index } => Some((*index, Need::Kind(EntryKind::Long))),
        Instr::Field { op, index } => Some((*index, Need::Kind(kind_of_field(*op)))),
        Instr::Invoke { op, index } => Some((*index, Need::Kind(kind_of_call(*op)))),
        Instr::InvokeInterface { index, count } => Some((*index, Need::Called(*count))),
        Instr::New { index } | Instr::Checkcast { index } | Instr::Instanceof { index } => {
            Some((*index, Need::Kind(EntryKind::Class)))
        }
        Instr::AnewArray { index } => Some((*index, Need::Kind(EntryKind::ObjectClass))),
        Instr::AconstNull
        | Instr::Iconst(_)
        | Instr::Lconst(_)
        | Instr::Bipush { .. }
        | Instr::Sipush { .. }
        | Instr::Load { .. }
        | Instr::LoadFixed(_)
        | Instr::LoadElement(_)
        | Instr::Store { .. }
        | Instr::StoreFixed(_)
        | Instr::StoreElement(_)
        | Instr::Stack(_)
        | Instr::Arithmetic(_)
        | Instr::Divide(_)
        | Instr::Negate(_)
        | Instr::Shift(_)
        | Instr::Bitwise(_)
        | Instr::Iinc { .. }
        | Instr::Convert(_)
        | Instr::Lcmp
        | Instr::If { .. }
        | Instr::IfIcmp { .. }
        | Instr::IfAcmp { .. }
        | Instr::Goto { .. }
        | Instr::GotoW { .. }
        | Instr::TableSwitch(_)
        | Instr::LookupSwitch(_)
        | Instr::Return(_)
        | Instr::NewIntArray
        | Instr::ArrayLength
        | Instr::Athrow
        | Instr::WideLoad { .. }
        | Instr::WideStore { .. }
        | Instr::WideIinc { .. }
        | Instr::IfNull { .. } => None,
    }
}
