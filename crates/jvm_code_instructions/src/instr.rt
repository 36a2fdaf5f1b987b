//! Instructions: a variant for each row of the instruction table (JVMS SE 8 §6.5).

use jvm_code_opcodes::{
    Arithmetic, ArrayLoad, ArrayStore, Bitwise, Conversion, Division, FieldOp, FixedLoad,
    FixedStore, IntConstant, IntTest, InvokeOp, LoadOp, LongConstant, Negation, NullTest,
    ReferenceTest, ReturnOp, Shift, StackOp, StoreOp, ZeroTest,
};

/// A jump by table (*tableswitch*): the number `low + i` goes to `targets[i]`, every other to `default`.
#[derive(Debug, Drop, PartialEq, Eq)]
pub struct TableSwitch {
    /// Where a number goes that the table does not have, as an offset in the code.
    pub default: u32,
    /// The number of the first target.
    pub low: i32,
    /// The targets of `low` and on, as offsets in the code: at least one.
    pub targets: Vec<u32>,
}

/// A jump by look-up (*lookupswitch*): a number goes to the target of the pair that has it, every other to `default`.
#[derive(Debug, Drop, PartialEq, Eq)]
pub struct LookupSwitch {
    /// Where a number goes that no pair has, as an offset in the code.
    pub default: u32,
    /// Numbers, strictly ascending, each with its target as an offset in the code.
    pub pairs: Vec<(i32, u32)>,
}

/// An instruction. A `target` is an offset in the code, an `index` one in the constant pool, a `local` the number of a
/// local variable.
#[derive(Debug, Drop, PartialEq, Eq)]
pub enum Instr {
    /// Pushes null.
    AconstNull,
    /// Pushes a small `int` that the opcode names.
    Iconst(IntConstant),
    /// Pushes a small `long` that the opcode names.
    Lconst(LongConstant),
    /// Pushes an `int` of one byte.
    Bipush { value: i8 },
    /// Pushes an `int` of two bytes.
    Sipush { value: i16 },
    /// Pushes an Integer or a String of the constant pool.
    LdcW { index: u16 },
    /// Pushes a Long of the constant pool.
    Ldc2W { index: u16 },
    /// Pushes a local variable.
    Load { op: LoadOp, local: u8 },
    /// Pushes a local variable that the opcode names.
    LoadFixed(FixedLoad),
    /// Takes an array and an index, and pushes the element.
    LoadElement(ArrayLoad),
    /// Pops into a local variable.
    Store { op: StoreOp, local: u8 },
    /// Pops into a local variable that the opcode names.
    StoreFixed(FixedStore),
    /// Takes an array, an index and a value, and stores the value.
    StoreElement(ArrayStore),
    /// Drops, copies or swaps units of the operand stack.
    Stack(StackOp),
    /// Adds, subtracts or multiplies.
    Arithmetic(Arithmetic),
    /// Divides, or takes the remainder.
    Divide(Division),
    /// Negates.
    Negate(Negation),
    /// Shifts.
    Shift(Shift),
    /// And, or, exclusive or.
    Bitwise(Bitwise),
    /// Adds a number to a local `int`.
    Iinc { local: u8, amount: i8 },
    /// Converts a number.
    Convert(Conversion),
    /// Compares two `long`s.
    Lcmp,
    /// Jumps where an `int` compares so with zero.
    If { test: ZeroTest, target: u32 },
    /// Jumps where two `int`s compare so.
    IfIcmp { test: IntTest, target: u32 },
    /// Jumps where two references compare so.
    IfAcmp { test: ReferenceTest, target: u32 },
    /// Jumps, by a distance of two bytes.
    Goto { target: u32 },
    /// Jumps, by a distance of four bytes.
    GotoW { target: u32 },
    /// Jumps by table.
    TableSwitch(TableSwitch),
    /// Jumps by look-up.
    LookupSwitch(LookupSwitch),
    /// Leaves the method.
    Return(ReturnOp),
    /// Reads or writes a field.
    Field { op: FieldOp, index: u16 },
    /// Calls a method of a class.
    Invoke { op: InvokeOp, index: u16 },
    /// Calls a method of an interface. `count` is the units of the arguments with the receiver, at least one.
    InvokeInterface { index: u16, count: u8 },
    /// Makes an object without initialising it.
    New { index: u16 },
    /// Makes an array of `int`s (*newarray* with the type code 10).
    NewIntArray,
    /// Makes an array of references.
    AnewArray { index: u16 },
    /// The length of an array.
    ArrayLength,
    /// Throws.
    Athrow,
    /// Throws where a reference is not of a class.
    Checkcast { index: u16 },
    /// Tells if a reference is of a class.
    Instanceof { index: u16 },
    /// The wide form of `Load`.
    WideLoad { op: LoadOp, local: u16 },
    /// The wide form of `Store`.
    WideStore { op: StoreOp, local: u16 },
    /// The wide form of `Iinc`.
    WideIinc { local: u16, amount: i16 },
    /// Jumps where a reference is null, or is not.
    IfNull { test: NullTest, target: u32 },
}
