//! The operands of arithmetic.

ghost use Rattle.class_verify_rules.specs.Acts.{Operate, arithmetic, binary, bitwise, convert, divide, negate, shift};
ghost use Rattle.class_verify_rules.specs.Acts.{unary};
ghost use Rattle.std.specs.Prelude.{◌≡◌, ◌∷◌, []};

use class_linked::Kind;
use jvm_code_opcodes::{Arithmetic, Bitwise, Conversion, Division, Negation, Shift};

/// The kind of both operands and of the result.
pub fn arithmetic_kind(op: Arithmetic) -> Kind
    ensures { arithmetic op ≡ binary result }
{
    match op {
        Arithmetic::Iadd | Arithmetic::Isub | Arithmetic::Imul => Kind::Int,
        Arithmetic::Ladd | Arithmetic::Lsub | Arithmetic::Lmul => Kind::Long,
    }
}

/// The kind of both operands and of the result.
pub fn division_kind(op: Division) -> Kind
    ensures { divide op ≡ binary result }
{
    match op {
        Division::Idiv | Division::Irem => Kind::Int,
        Division::Ldiv | Division::Lrem => Kind::Long,
    }
}

/// The kind of the operand and of the result.
pub fn negation_kind(op: Negation) -> Kind
    ensures { negate op ≡ unary result result }
{
    match op {
        Negation::Ineg => Kind::Int,
        Negation::Lneg => Kind::Long,
    }
}

/// The kind of what is shifted and of the result.
pub fn shift_kind(op: Shift) -> Kind
    ensures { shift op ≡ Operate (Kind.Int ∷ result ∷ []) (result ∷ []) }
{
    match op {
        Shift::Ishl | Shift::Ishr | Shift::Iushr => Kind::Int,
        Shift::Lshl | Shift::Lshr | Shift::Lushr => Kind::Long,
    }
}

/// The kind of both operands and of the result.
pub fn bitwise_kind(op: Bitwise) -> Kind
    ensures { bitwise op ≡ binary result }
{
    match op {
        Bitwise::Iand | Bitwise::Ior | Bitwise::Ixor => Kind::Int,
        Bitwise::Land | Bitwise::Lor | Bitwise::Lxor => Kind::Long,
    }
}

/// The kind of the operand, and that of the result.
pub fn conversion_kinds(op: Conversion) -> (Kind, Kind)
    ensures { convert op ≡ unary result.0 result.1 }
{
    match op {
        Conversion::I2l => (Kind::Int, Kind::Long),
        Conversion::L2i => (Kind::Long, Kind::Int),
        Conversion::I2c => (Kind::Int, Kind::Int),
    }
}
