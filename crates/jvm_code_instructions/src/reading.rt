//! An instruction from the front of bytes.

ghost use Rattle.std.specs.Prelude.{length, ◌<◌, Ok, Some, IfOk};
ghost use Rattle.jvm_code_instructions.specs.Table.{row_of, operand_shape, constant_shape, stack_shape, shape_of, IsWide, IsCalled, IsInts};
ghost use Rattle.jvm_code_instructions.specs.Reading.{Gives, wide_at, shaped_at, row_at};

use crate::fault::Fault;
use crate::instr::Instr;
use crate::numbers::{byte_of, count_of, far_of, near_of, only_of, u16_of};
use crate::switches::{lookup_switch_of, table_switch_of};
use jvm_code_opcodes::{
    Arithmetic, ArrayLoad, ArrayStore, Bitwise, Conversion, Division, FieldOp, FixedLoad,
    FixedStore, IntConstant, IntTest, InvokeOp, LoadOp, LongConstant, Negation, NullTest,
    ReferenceTest, ReturnOp, Shift, StackOp, StoreOp, ZeroTest,
};
use std::alloc::Global;

/// The rest of a wide form, behind its opcode.
#[tactic(auto, unfolding(crate::specs::Reading::wide_at, crate::specs::Reading::wide_operands_at, crate::specs::Table::wide_shape, crate::specs::Reading::shaped_at, crate::specs::Reading::operands_at))]
fn wide_of(bytes: &[u8]) -> Result<(Instr, &[u8]), Fault>
    ensures { Gives (λ x. (row_of x.0, x.1.now)) result (shaped_at 0 0xc4 (Some IsWide) bytes.now) }
{
    let (opcode, rest) = byte_of(bytes)?;
    if opcode == 0x84 {
        let (local, rest) = u16_of(rest)?;
        let (amount, rest) = u16_of(rest)?;
        let amount = amount.cast_signed();
        return Ok((Instr::WideIinc { local, amount }, rest));
    }
    if let Some(op) = LoadOp::of_code(opcode) {
        let (local, rest) = u16_of(rest)?;
        return Ok((Instr::WideLoad { op, local }, rest));
    }
    if let Some(op) = StoreOp::of_code(opcode) {
        let (local, rest) = u16_of(rest)?;
        return Ok((Instr::WideStore { op, local }, rest));
    }
    Err(Fault::BadOpcode)
}

#[tactic(auto, unfolding(crate::specs::Reading::called_at, crate::specs::Reading::shaped_at, crate::specs::Reading::operands_at))]
fn called_of(bytes: &[u8]) -> Result<(Instr, &[u8]), Fault>
    ensures { Gives (λ x. (row_of x.0, x.1.now)) result (shaped_at 0 0xb9 (Some IsCalled) bytes.now) }
{
    let (index, rest) = u16_of(bytes)?;
    let (count, rest) = count_of(rest)?;
    let rest = only_of(0, rest)?;
    Ok((Instr::InvokeInterface { index, count }, rest))
}

#[tactic(auto, unfolding(crate::specs::Reading::ints_at, crate::specs::Reading::shaped_at, crate::specs::Reading::operands_at))]
fn ints_of(bytes: &[u8]) -> Result<(Instr, &[u8]), Fault>
    ensures { Gives (λ x. (row_of x.0, x.1.now)) result (shaped_at 0 0xbc (Some IsInts) bytes.now) }
{
    let rest = only_of(10, bytes)?;
    Ok((Instr::NewIntArray, rest))
}

/// The instructions that work on the stack alone.
#[tactic(auto, unfolding(crate::specs::Reading::shaped_at, crate::specs::Reading::operands_at))]
fn stack_instr(code: u8, rest: &[u8]) -> Result<(Instr, &[u8]), Fault>
    ensures { Gives (λ x. (row_of x.0, x.1.now)) result (shaped_at 0 code (stack_shape code) rest.now) }
{
    if let Some(op) = StackOp::of_code(code) {
        return Ok((Instr::Stack(op), rest));
    }
    if let Some(op) = Arithmetic::of_code(code) {
        return Ok((Instr::Arithmetic(op), rest));
    }
    if let Some(op) = Division::of_code(code) {
        return Ok((Instr::Divide(op), rest));
    }
    if let Some(op) = Negation::of_code(code) {
        return Ok((Instr::Negate(op), rest));
    }
    if let Some(op) = Shift::of_code(code) {
        return Ok((Instr::Shift(op), rest));
    }
    if let Some(op) = Bitwise::of_code(code) {
        return Ok((Instr::Bitwise(op), rest));
    }
    if let Some(op) = Conversion::of_code(code) {
        return Ok((Instr::Convert(op), rest));
    }
    if let Some(op) = ReturnOp::of_code(code) {
        return Ok((Instr::Return(op), rest));
    }
    Err(Fault::BadOpcode)
}

/// The instructions that name a constant or a local by their opcode, and those on elements of arrays.
#[tactic(auto, unfolding(crate::specs::Reading::shaped_at, crate::specs::Reading::operands_at))]
fn constant_instr(code: u8, rest: &[u8]) -> Result<(Instr, &[u8]), Fault>
    ensures { Gives (λ x. (row_of x.0, x.1.now)) result (shaped_at 0 code (constant_shape code) rest.now) }
{
    if let Some(op) = IntConstant::of_code(code) {
        return Ok((Instr::Iconst(op), rest));
    }
    if let Some(op) = LongConstant::of_code(code) {
        return Ok((Instr::Lconst(op), rest));
    }
    if let Some(op) = FixedLoad::of_code(code) {
        return Ok((Instr::LoadFixed(op), rest));
    }
    if let Some(op) = ArrayLoad::of_code(code) {
        return Ok((Instr::LoadElement(op), rest));
    }
    if let Some(op) = FixedStore::of_code(code) {
        return Ok((Instr::StoreFixed(op), rest));
    }
    if let Some(op) = ArrayStore::of_code(code) {
        return Ok((Instr::StoreElement(op), rest));
    }
    stack_instr(code, rest)
}

/// The rows of several opcodes.
#[tactic(auto, unfolding(crate::specs::Reading::shaped_at, crate::specs::Reading::operands_at))]
fn operand_instr(at: u32, code: u8, rest: &[u8]) -> Result<(Instr, &[u8]), Fault>
    ensures { Gives (λ x. (row_of x.0, x.1.now)) result (shaped_at at code (operand_shape code) rest.now) }
{
    if let Some(op) = LoadOp::of_code(code) {
        let (local, rest) = byte_of(rest)?;
        return Ok((Instr::Load { op, local }, rest));
    }
    if let Some(op) = StoreOp::of_code(code) {
        let (local, rest) = byte_of(rest)?;
        return Ok((Instr::Store { op, local }, rest));
    }
    if let Some(test) = ZeroTest::of_code(code) {
        let (target, rest) = near_of(at, rest)?;
        return Ok((Instr::If { test, target }, rest));
    }
    if let Some(test) = IntTest::of_code(code) {
        let (target, rest) = near_of(at, rest)?;
        return Ok((Instr::IfIcmp { test, target }, rest));
    }
    if let Some(test) = ReferenceTest::of_code(code) {
        let (target, rest) = near_of(at, rest)?;
        return Ok((Instr::IfAcmp { test, target }, rest));
    }
    if let Some(test) = NullTest::of_code(code) {
        let (target, rest) = near_of(at, rest)?;
        return Ok((Instr::IfNull { test, target }, rest));
    }
    if let Some(op) = FieldOp::of_code(code) {
        let (index, rest) = u16_of(rest)?;
        return Ok((Instr::Field { op, index }, rest));
    }
    if let Some(op) = InvokeOp::of_code(code) {
        let (index, rest) = u16_of(rest)?;
        return Ok((Instr::Invoke { op, index }, rest));
    }
    constant_instr(code, rest)
}

#[tactic(auto, unfolding(crate::specs::Reading::shaped_at, crate::specs::Reading::operands_at, crate::specs::Table::shape_of))]
fn instr_behind(alloc: Global, at: u32, code: u8, rest: &[u8]) -> Result<(Instr, &[u8]), Fault>
    ensures { Gives (λ x. (row_of x.0, x.1.now)) result (shaped_at at code (shape_of code) rest.now) }
{
    match code {
        0x01 => Ok((Instr::AconstNull, rest)),
        0x10 => {
            let (n, rest) = byte_of(rest)?;
            let value = n.cast_signed();
            Ok((Instr::Bipush { value }, rest))
        }
        0x11 => {
            let (n, rest) = u16_of(rest)?;
            let value = n.cast_signed();
            Ok((Instr::Sipush { value }, rest))
        }
        0x13 => {
            let (index, rest) = u16_of(rest)?;
            Ok((Instr::LdcW { index }, rest))
        }
        0x14 => {
            let (index, rest) = u16_of(rest)?;
            Ok((Instr::Ldc2W { index }, rest))
        }
        0x84 => {
            let (local, rest) = byte_of(rest)?;
            let (n, rest) = byte_of(rest)?;
            let amount = n.cast_signed();
            Ok((Instr::Iinc { local, amount }, rest))
        }
        0x94 => Ok((Instr::Lcmp, rest)),
        0xa7 => {
            let (target, rest) = near_of(at, rest)?;
            Ok((Instr::Goto { target }, rest))
        }
        0xaa => {
            let (table, rest) = table_switch_of(alloc, at, rest)?;
            Ok((Instr::TableSwitch(table), rest))
        }
        0xab => {
            let (lookup, rest) = lookup_switch_of(alloc, at, rest)?;
            Ok((Instr::LookupSwitch(lookup), rest))
        }
        0xb9 => called_of(rest),
        0xbb => {
            let (index, rest) = u16_of(rest)?;
            Ok((Instr::New { index }, rest))
        }
        0xbc => ints_of(rest),
        0xbd => {
            let (index, rest) = u16_of(rest)?;
            Ok((Instr::AnewArray { index }, rest))
        }
        0xbe => Ok((Instr::ArrayLength, rest)),
        0xbf => Ok((Instr::Athrow, rest)),
        0xc0 => {
            let (index, rest) = u16_of(rest)?;
            Ok((Instr::Checkcast { index }, rest))
        }
        0xc1 => {
            let (index, rest) = u16_of(rest)?;
            Ok((Instr::Instanceof { index }, rest))
        }
        0xc4 => wide_of(rest),
        0xc8 => {
            let (target, rest) = far_of(at, rest)?;
            Ok((Instr::GotoW { target }, rest))
        }
        _ => operand_instr(at, code, rest),
    }
}

#[tactic(auto, unfolding(crate::specs::Reading::row_at))]
fn instr_in(alloc: Global, at: u32, bytes: &[u8]) -> Result<(Instr, &[u8]), Fault>
    ensures { Gives (λ x. (row_of x.0, x.1.now)) result (row_at at bytes.now) }
{
    match bytes {
        [] => Err(Fault::Cut),
        [code, rest @ ..] => instr_behind(alloc, at, *code, rest),
    }
}

/// The instruction at the front of bytes, which stands at an offset in the code, and the bytes behind it (JVMS SE 8
/// §6.5).
///
/// From left to right, the first fault that is met: `BadOpcode` at an opcode that the table doesn't have and at an
/// operand that its row doesn't allow (padding or a last byte that isn't zero, a count of zero at *invokeinterface*,
/// another array type than `int`, a `low` above its `high`, numbers of a *lookupswitch* that don't ascend strictly, a
/// negative count, a wide form of another instruction); `Cut` where the bytes end before.
pub fn instr_of(alloc: Global, at: u32, bytes: &[u8]) -> Result<(Instr, &[u8]), Fault>
    // Fewer bytes stand behind it than there were.
    ensures shorter { IfOk result (λ x. length x.1.now < length bytes.now) }
    // What reading gives, unless memory runs out.
    ensures is { Gives (λ x. (row_of x.0, x.1.now)) result (row_at at bytes.now) }
{
    instr_in(alloc, at, bytes)
}
