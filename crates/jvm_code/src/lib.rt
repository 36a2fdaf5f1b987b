//! JVM code: a list of instructions, each with its offset, and its bytes, both ways (JVMS SE 8 §4.7.3, §4.9).
#![tactic(auto)]

mod decoding;
mod encoding;
mod error;
mod laws;
mod layout;
mod targets;

pub use decoding::decode;
pub use encoding::encode;
pub use error::CodeErr;
pub use jvm_code_instructions::{Instr, LookupSwitch, TableSwitch, row_tells_instruction};
pub use jvm_code_opcodes::{
    Arithmetic, ArrayLoad, ArrayStore, Bitwise, Conversion, Division, FieldOp, FixedLoad,
    FixedStore, IntConstant, IntTest, InvokeOp, LoadOp, LongConstant, Negation, NullTest,
    ReferenceTest, ReturnOp, Shift, StackOp, StoreOp, ZeroTest,
};
pub use laws::{decoded_is_encoded, encoded_is_decoded, spelling_has_one_list};
pub use layout::laid;
