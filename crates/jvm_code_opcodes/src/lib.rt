//! The opcodes of the rows of the instruction table that have several: an enum for each row, to its opcodes and back
//! (JVMS SE 8 §6.5).
#![tactic(auto)]

mod opcodes;

pub use opcodes::{
    Arithmetic, ArrayLoad, ArrayStore, Bitwise, Conversion, Division, FieldOp, FixedLoad,
    FixedStore, IntConstant, IntTest, InvokeOp, LoadOp, LongConstant, Negation, NullTest,
    ReferenceTest, ReturnOp, Shift, StackOp, StoreOp, ZeroTest,
};
