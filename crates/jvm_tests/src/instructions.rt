//! One instruction, by the table of JVMS SE 8 §6.5.

use jvm_code_instructions::{Fault, instr_of, is_allowed, put_instr, size_of};
use std::alloc::Global;
use std::process::Abort;
use std::test::*;

/// Asserts what instruction the bytes spell at an offset, and that it is spelled so.
fn both_ways(
    rt: &impl Abort,
    alloc: Global,
    at: u32,
    bytes: &[u8],
    want: &str,
) -> Result<(), Fail> {
    let (instr, rest) = instr_of(alloc, at, bytes)?;
    let text = format!(in alloc; "{instr:?}")?;
    assert_eq!(rt; text.as_str(), want, "of {bytes:?}");
    assert!(rt; rest.is_empty());
    assert!(rt; is_allowed(&instr));
    assert_eq!(rt; size_of(at, &instr), bytes.len() as u64, "of {want}");
    let mut out = Vec::new(alloc);
    put_instr(&mut out, at, &instr)?;
    assert_eq!(rt; out.as_slice(), bytes, "of {want}");
    Ok(())
}

fn each_both_ways(
    rt: &impl Abort,
    alloc: Global,
    table: &[(&'static [u8], &'static str)],
) -> Result<(), Fail> {
    for (bytes, want) in table {
        both_ways(rt, alloc, 0, bytes, want)?;
    }
    Ok(())
}

/// Instructions that push constants, and that move locals and elements.
fn constants_and_locals() -> [(&'static [u8], &'static str); 25] {
    [
        (b"\x01", "AconstNull"),
        (b"\x02", "Iconst(IconstM1)"),
        (b"\x08", "Iconst(Iconst5)"),
        (b"\x09", "Lconst(Lconst0)"),
        (b"\x0a", "Lconst(Lconst1)"),
        (b"\x10\xff", "Bipush { value: -1 }"),
        (b"\x11\x80\x00", "Sipush { value: -32768 }"),
        (b"\x13\x01\x02", "LdcW { index: 258 }"),
        (b"\x14\x00\x05", "Ldc2W { index: 5 }"),
        (b"\x15\x07", "Load { op: Iload, local: 7 }"),
        (b"\x16\xff", "Load { op: Lload, local: 255 }"),
        (b"\x19\x00", "Load { op: Aload, local: 0 }"),
        (b"\x1a", "LoadFixed(Iload0)"),
        (b"\x21", "LoadFixed(Lload3)"),
        (b"\x2b", "LoadFixed(Aload1)"),
        (b"\x2e", "LoadElement(Iaload)"),
        (b"\x32", "LoadElement(Aaload)"),
        (b"\x36\x01", "Store { op: Istore, local: 1 }"),
        (b"\x37\x02", "Store { op: Lstore, local: 2 }"),
        (b"\x3a\x03", "Store { op: Astore, local: 3 }"),
        (b"\x3b", "StoreFixed(Istore0)"),
        (b"\x42", "StoreFixed(Lstore3)"),
        (b"\x4e", "StoreFixed(Astore3)"),
        (b"\x4f", "StoreElement(Iastore)"),
        (b"\x53", "StoreElement(Aastore)"),
    ]
}

/// Instructions on the stack and on numbers.
fn numbers() -> [(&'static [u8], &'static str); 15] {
    [
        (b"\x57", "Stack(Pop)"),
        (b"\x5b", "Stack(DupX2)"),
        (b"\x5f", "Stack(Swap)"),
        (b"\x60", "Arithmetic(Iadd)"),
        (b"\x69", "Arithmetic(Lmul)"),
        (b"\x6d", "Divide(Ldiv)"),
        (b"\x70", "Divide(Irem)"),
        (b"\x75", "Negate(Lneg)"),
        (b"\x7c", "Shift(Iushr)"),
        (b"\x83", "Bitwise(Lxor)"),
        (b"\x84\x01\x80", "Iinc { local: 1, amount: -128 }"),
        (b"\x85", "Convert(I2l)"),
        (b"\x88", "Convert(L2i)"),
        (b"\x92", "Convert(I2c)"),
        (b"\x94", "Lcmp"),
    ]
}

/// Instructions that jump, return, call, and work on objects.
fn jumps_and_objects() -> [(&'static [u8], &'static str); 25] {
    [
        (b"\x99\x00\x00", "If { test: Ifeq, target: 0 }"),
        (b"\x9e\x00\x00", "If { test: Ifle, target: 0 }"),
        (b"\xa1\x00\x00", "IfIcmp { test: IfIcmplt, target: 0 }"),
        (b"\xa6\x00\x00", "IfAcmp { test: IfAcmpne, target: 0 }"),
        (b"\xa7\x00\x00", "Goto { target: 0 }"),
        (b"\xac", "Return(Ireturn)"),
        (b"\xad", "Return(Lreturn)"),
        (b"\xb0", "Return(Areturn)"),
        (b"\xb1", "Return(Return)"),
        (b"\xb4\x00\x01", "Field { op: Getfield, index: 1 }"),
        (b"\xb5\xff\xff", "Field { op: Putfield, index: 65535 }"),
        (b"\xb6\x00\x01", "Invoke { op: Invokevirtual, index: 1 }"),
        (b"\xb7\x00\x02", "Invoke { op: Invokespecial, index: 2 }"),
        (b"\xb8\x00\x03", "Invoke { op: Invokestatic, index: 3 }"),
        (
            b"\xb9\x00\x04\x02\x00",
            "InvokeInterface { index: 4, count: 2 }",
        ),
        (b"\xbb\x00\x06", "New { index: 6 }"),
        (b"\xbc\x0a", "NewIntArray"),
        (b"\xbd\x00\x07", "AnewArray { index: 7 }"),
        (b"\xbe", "ArrayLength"),
        (b"\xbf", "Athrow"),
        (b"\xc0\x00\x08", "Checkcast { index: 8 }"),
        (b"\xc1\x00\x09", "Instanceof { index: 9 }"),
        (b"\xc6\x00\x00", "IfNull { test: Ifnull, target: 0 }"),
        (b"\xc7\x00\x00", "IfNull { test: Ifnonnull, target: 0 }"),
        (b"\xc8\x00\x00\x00\x00", "GotoW { target: 0 }"),
    ]
}

/// Wide forms.
fn wide_forms() -> [(&'static [u8], &'static str); 5] {
    [
        (b"\xc4\x15\x01\x00", "WideLoad { op: Iload, local: 256 }"),
        (b"\xc4\x19\x00\x01", "WideLoad { op: Aload, local: 1 }"),
        (
            b"\xc4\x37\xff\xff",
            "WideStore { op: Lstore, local: 65535 }",
        ),
        (
            b"\xc4\x84\x00\x02\x80\x00",
            "WideIinc { local: 2, amount: -32768 }",
        ),
        (b"\xc4\x36\x01\x2c", "WideStore { op: Istore, local: 300 }"),
    ]
}

#[test]
fn rows_both_ways(rt: HostRuntime) -> Result<(), Fail> {
    each_both_ways(&rt, rt.alloc(), &constants_and_locals())?;
    each_both_ways(&rt, rt.alloc(), &numbers())?;
    each_both_ways(&rt, rt.alloc(), &jumps_and_objects())?;
    each_both_ways(&rt, rt.alloc(), &wide_forms())
}

/// Distances, forth and back, and the farthest.
fn distances() -> [(u32, &'static [u8], &'static str); 5] {
    [
        (7, b"\x99\xff\xf9", "If { test: Ifeq, target: 0 }"),
        (32768, b"\xa7\x80\x00", "Goto { target: 0 }"),
        (0, b"\xa7\x7f\xff", "Goto { target: 32767 }"),
        (70000, b"\xc8\xff\xfe\xee\x90", "GotoW { target: 0 }"),
        (1, b"\xc8\x7f\xff\xff\xff", "GotoW { target: 2147483648 }"),
    ]
}

/// Switches behind each of the four paddings, with one target or no pair, and two with several.
fn switches() -> [(u32, &'static [u8], &'static str); 10] {
    [
        (
            0,
            b"\xaa\x00\x00\x00\x00\x00\x00\x00\x00\x00\x00\x05\x00\x00\x00\x05\x00\x00\x00\x00",
            "TableSwitch(TableSwitch { default: 0, low: 5, targets: [0] })",
        ),
        (
            0,
            b"\xab\x00\x00\x00\x00\x00\x00\x00\x00\x00\x00\x00",
            "LookupSwitch(LookupSwitch { default: 0, pairs: [] })",
        ),
        (
            1,
            b"\xaa\x00\x00\xff\xff\xff\xff\x00\x00\x00\x05\x00\x00\x00\x05\xff\xff\xff\xff",
            "TableSwitch(TableSwitch { default: 0, low: 5, targets: [0] })",
        ),
        (
            1,
            b"\xab\x00\x00\xff\xff\xff\xff\x00\x00\x00\x00",
            "LookupSwitch(LookupSwitch { default: 0, pairs: [] })",
        ),
        (
            2,
            b"\xaa\x00\xff\xff\xff\xfe\x00\x00\x00\x05\x00\x00\x00\x05\xff\xff\xff\xfe",
            "TableSwitch(TableSwitch { default: 0, low: 5, targets: [0] })",
        ),
        (
            2,
            b"\xab\x00\xff\xff\xff\xfe\x00\x00\x00\x00",
            "LookupSwitch(LookupSwitch { default: 0, pairs: [] })",
        ),
        (
            3,
            b"\xaa\xff\xff\xff\xfd\x00\x00\x00\x05\x00\x00\x00\x05\xff\xff\xff\xfd",
            "TableSwitch(TableSwitch { default: 0, low: 5, targets: [0] })",
        ),
        (
            3,
            b"\xab\xff\xff\xff\xfd\x00\x00\x00\x00",
            "LookupSwitch(LookupSwitch { default: 0, pairs: [] })",
        ),
        (
            2,
            b"\xaa\x00\x00\x00\x00\x01\xff\xff\xff\xff\x00\x00\x00\x02\xff\xff\xff\xfe\xff\xff\xff\xfe\xff\xff\xff\xfe\xff\xff\xff\xfe",
            "TableSwitch(TableSwitch { default: 3, low: -1, targets: [0, 0, 0, 0] })",
        ),
        (
            3,
            b"\xab\xff\xff\xff\xfd\x00\x00\x00\x03\x80\x00\x00\x00\xff\xff\xff\xfd\x00\x00\x00\x07\x00\x00\x00\x09\x7f\xff\xff\xff\xff\xff\xff\xfd",
            "LookupSwitch(LookupSwitch { default: 0, pairs: [(-2147483648, 0), (7, 12), (2147483647, 0)] })",
        ),
    ]
}

fn each_at_an_offset(
    rt: &impl Abort,
    alloc: Global,
    table: &[(u32, &'static [u8], &'static str)],
) -> Result<(), Fail> {
    for (at, bytes, want) in table {
        both_ways(rt, alloc, *at, bytes, want)?;
    }
    Ok(())
}

#[test]
fn offsets_both_ways(rt: HostRuntime) -> Result<(), Fail> {
    each_at_an_offset(&rt, rt.alloc(), &distances())?;
    each_at_an_offset(&rt, rt.alloc(), &switches())
}

#[test]
fn faults(rt: HostRuntime) -> Result<(), Fail> {
    let huge = b"\xaa\0\0\0\0\0\0\0\x80\0\0\0\x7f\xff\xff\xff";
    assert_eq!(rt; instr_of(rt.alloc(), 0, huge).err(), Some(Fault::Cut));
    assert_eq!(rt;
        instr_of(rt.alloc(), 0, b"\xff").err(),
        Some(Fault::BadOpcode)
    );
    let text = format!(in rt.alloc(); "{}", Fault::Cut)?;
    assert_eq!(rt; text.as_str(), "the bytes end within the instruction");
    Ok(())
}
