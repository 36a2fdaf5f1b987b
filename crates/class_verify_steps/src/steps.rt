//! The step over one instruction.

ghost use Rattle.class_verify_frames.specs.Views.{IsIndexed, body, frame};
ghost use Rattle.class_verify_rules.specs.Acts.{act, binary, convert, fixed_load, fixed_store, load, load_element};
ghost use Rattle.class_verify_rules.specs.Acts.{shift, store, store_element, unary, use_field};
ghost use Rattle.class_verify_steps.specs.Stepping.{Steps};
ghost use Rattle.std.specs.Prelude.{◌≡◌, IfOk};

use crate::calls::{call, call_interface};
use crate::kinds::{
    arithmetic_kind, bitwise_kind, conversion_kinds, division_kind, negation_kind, shift_kind,
};
use crate::objects::{cast, get_field, make, make_objects, put_field, test};
use crate::sorts::{LocalSort, left_sort, loaded_fixed, stored_fixed};
use crate::values;
use crate::values::{
    array_length, change, go, leave, operate, push_constant, push_long, shuffle, store_value,
};
use class_linked::Kind;
use class_verify_frames::kinds::{
    INT_ARRAY_CLASS, OBJECT_ARRAY_CLASS, OBJECT_CLASS, THROWABLE_CLASS,
};
use class_verify_frames::{Body, Frame};
use jvm_code::Instr;
use jvm_code_opcodes::{
    ArrayLoad, ArrayStore, Conversion, FieldOp, FixedLoad, FixedStore, LoadOp, Shift, StoreOp,
};
use kt_base::NoMemory;

const AN_OBJECT: Kind = Kind::Object(OBJECT_CLASS);

const INT_ARRAY: Kind = Kind::Object(INT_ARRAY_CLASS);

const OBJECT_ARRAY: Kind = Kind::Object(OBJECT_ARRAY_CLASS);

fn operate_both(method: &Body, held: &mut Frame, offset: u32, kind: Kind) -> Result<bool, NoMemory>
    ensures { IfOk result (λ fine. Steps (body method.now) offset (binary kind)
        (frame held.old) fine (frame held.new)) }
{
    operate(method, held, offset, &[kind, kind], Some(kind))
}

fn push_element(
    method: &Body,
    held: &mut Frame,
    offset: u32,
    op: ArrayLoad,
) -> Result<bool, NoMemory>
    ensures { IfOk result (λ fine. Steps (body method.now) offset (load_element op)
        (frame held.old) fine (frame held.new)) }
{
    match op {
        ArrayLoad::Iaload => operate(
            method,
            held,
            offset,
            &[Kind::Int, INT_ARRAY],
            Some(Kind::Int),
        ),
        ArrayLoad::Aaload => {
            operate(
                method,
                held,
                offset,
                &[Kind::Int, OBJECT_ARRAY],
                Some(AN_OBJECT),
            )
        }
    }
}

fn pop_element(
    method: &Body,
    held: &mut Frame,
    offset: u32,
    op: ArrayStore,
) -> Result<bool, NoMemory>
    ensures { IfOk result (λ fine. Steps (body method.now) offset (store_element op)
        (frame held.old) fine (frame held.new)) }
{
    match op {
        ArrayStore::Iastore => {
            operate(
                method,
                held,
                offset,
                &[Kind::Int, Kind::Int, INT_ARRAY],
                None,
            )
        }
        ArrayStore::Aastore => {
            operate(
                method,
                held,
                offset,
                &[AN_OBJECT, Kind::Int, OBJECT_ARRAY],
                None,
            )
        }
    }
}

fn operate_one(
    method: &Body,
    held: &mut Frame,
    offset: u32,
    taken: Kind,
    given: Kind,
) -> Result<bool, NoMemory>
    ensures { IfOk result (λ fine. Steps (body method.now) offset (unary taken given)
        (frame held.old) fine (frame held.new)) }
{
    operate(method, held, offset, &[taken], Some(given))
}

fn convert_number(
    method: &Body,
    held: &mut Frame,
    offset: u32,
    op: Conversion,
) -> Result<bool, NoMemory>
    ensures { IfOk result (λ fine. Steps (body method.now) offset (convert op) (frame held.old) fine (frame held.new)) }
{
    let (taken, given) = conversion_kinds(op);
    operate_one(method, held, offset, taken, given)
}

fn shift_number(method: &Body, held: &mut Frame, offset: u32, op: Shift) -> Result<bool, NoMemory>
    ensures { IfOk result (λ fine. Steps (body method.now) offset (shift op) (frame held.old) fine (frame held.new)) }
{
    let kind = shift_kind(op);
    operate(method, held, offset, &[Kind::Int, kind], Some(kind))
}

fn load_local(
    method: &Body,
    held: &mut Frame,
    offset: u32,
    op: LoadOp,
    local: usize,
) -> Result<bool, NoMemory>
    ensures { IfOk result (λ fine. Steps (body method.now) offset (load op local)
        (frame held.old) fine (frame held.new)) }
{
    match op {
        LoadOp::Iload => values::load(method, held, offset, LocalSort::Int, local),
        LoadOp::Lload => values::load(method, held, offset, LocalSort::Long, local),
        LoadOp::Aload => values::load(method, held, offset, LocalSort::Reference, local),
    }
}

fn load_fixed(method: &Body, held: &mut Frame, offset: u32, op: FixedLoad) -> Result<bool, NoMemory>
    ensures { IfOk result (λ fine. Steps (body method.now) offset (fixed_load op)
        (frame held.old) fine (frame held.new)) }
{
    let (sort, local) = loaded_fixed(op);
    values::load(method, held, offset, sort, local)
}

fn store_local(method: &Body, held: &mut Frame, offset: u32, op: StoreOp, local: usize) -> bool
    ensures { Steps (body method.now) offset (store op local) (frame held.old) result (frame held.new) }
{
    match op {
        StoreOp::Istore => store_value(method, held, offset, LocalSort::Int, local),
        StoreOp::Lstore => store_value(method, held, offset, LocalSort::Long, local),
        StoreOp::Astore => store_value(method, held, offset, LocalSort::Reference, local),
    }
}

fn store_fixed(method: &Body, held: &mut Frame, offset: u32, op: FixedStore) -> bool
    ensures { Steps (body method.now) offset (fixed_store op) (frame held.old) result (frame held.new) }
{
    let (sort, local) = stored_fixed(op);
    store_value(method, held, offset, sort, local)
}

fn use_field_of(
    method: &Body,
    held: &mut Frame,
    offset: u32,
    op: FieldOp,
    index: u16,
) -> Result<bool, NoMemory>
    ensures { IfOk result (λ fine. Steps (body method.now) offset (use_field op index)
        (frame held.old) fine (frame held.new)) }
{
    match op {
        FieldOp::Getfield => get_field(method, held, offset, index),
        FieldOp::Putfield => Ok(put_field(method, held, offset, index)),
    }
}

/// Whether the frame before an instruction allows it; the frame is then the one behind it. Where it doesn't, nothing is
/// said of the frame afterwards.
pub fn step(method: &Body, held: &mut Frame, offset: u32, instr: &Instr) -> Result<bool, NoMemory>
    requires { IsIndexed method.now }
    ensures { IfOk result (λ fine. Steps (body method.now) offset (act instr.now)
        (frame held.old) fine (frame held.new)) }
{
    match instr {
        Instr::AconstNull => operate(method, held, offset, &[], Some(Kind::Null)),
        Instr::Iconst(_) | Instr::Bipush { .. } | Instr::Sipush { .. } => {
            operate(method, held, offset, &[], Some(Kind::Int))
        }
        Instr::Lconst(_) => operate(method, held, offset, &[], Some(Kind::Long)),
        Instr::LdcW { index } => push_constant(method, held, offset, *index),
        Instr::Ldc2W { index } => push_long(method, held, offset, *index),
        Instr::Load { op, local } => load_local(method, held, offset, *op, *local as usize),
        Instr::WideLoad { op, local } => load_local(method, held, offset, *op, *local as usize),
        Instr::LoadFixed(op) => load_fixed(method, held, offset, *op),
        Instr::LoadElement(op) => push_element(method, held, offset, *op),
        Instr::Store { op, local } => Ok(store_local(method, held, offset, *op, *local as usize)),
        Instr::WideStore { op, local } => {
            Ok(store_local(method, held, offset, *op, *local as usize))
        }
        Instr::StoreFixed(op) => Ok(store_fixed(method, held, offset, *op)),
        Instr::StoreElement(op) => pop_element(method, held, offset, *op),
        Instr::Stack(op) => shuffle(method, held, offset, *op),
        Instr::Arithmetic(op) => operate_both(method, held, offset, arithmetic_kind(*op)),
        Instr::Divide(op) => operate_both(method, held, offset, division_kind(*op)),
        Instr::Negate(op) => {
            let kind = negation_kind(*op);
            operate_one(method, held, offset, kind, kind)
        }
        Instr::Shift(op) => shift_number(method, held, offset, *op),
        Instr::Bitwise(op) => operate_both(method, held, offset, bitwise_kind(*op)),
        Instr::Iinc { local, .. } => Ok(change(method, held, offset, *local as usize)),
        Instr::WideIinc { local, .. } => Ok(change(method, held, offset, *local as usize)),
        Instr::Convert(op) => convert_number(method, held, offset, *op),
        Instr::Lcmp => operate(
            method,
            held,
            offset,
            &[Kind::Long, Kind::Long],
            Some(Kind::Int),
        ),
        Instr::If { .. } => Ok(go(method, held, offset, &[Kind::Int])),
        Instr::IfIcmp { .. } => Ok(go(method, held, offset, &[Kind::Int, Kind::Int])),
        Instr::IfAcmp { .. } => Ok(go(method, held, offset, &[AN_OBJECT, AN_OBJECT])),
        Instr::IfNull { .. } => Ok(go(method, held, offset, &[AN_OBJECT])),
        Instr::Goto { .. } => Ok(go(method, held, offset, &[])),
        Instr::GotoW { .. } => Ok(false),
        Instr::TableSwitch(_) | Instr::LookupSwitch(_) => {
            Ok(go(method, held, offset, &[Kind::Int]))
        }
        Instr::Return(op) => Ok(leave(method, held, offset, left_sort(*op))),
        Instr::Field { op, index } => use_field_of(method, held, offset, *op, *index),
        Instr::Invoke { op, index } => call(method, held, offset, *op, *index),
        Instr::InvokeInterface { index, .. } => call_interface(method, held, offset, *index),
        Instr::New { index } => make(method, held, offset, *index),
        Instr::NewIntArray => operate_one(method, held, offset, Kind::Int, INT_ARRAY),
        Instr::AnewArray { index } => make_objects(method, held, offset, *index),
        Instr::ArrayLength => array_length(method, held, offset),
        Instr::Athrow => Ok(go(method, held, offset, &[Kind::Object(THROWABLE_CLASS)])),
        Instr::Checkcast { index } => cast(method, held, offset, *index),
        Instr::Instanceof { index } => test(method, held, offset, *index),
    }
}
