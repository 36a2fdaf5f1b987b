//! One JVM instruction and its bytes, both ways (JVMS SE 8 §6.5).
//!
//! [`Instr`] has a variant for each row of the instruction table. [`instr_of`] reads the instruction at the front of
//! bytes and [`put_instr`] writes one; [`is_allowed`] tells if its row allows its operands, and [`size_of`] how many
//! bytes it takes. Where each instruction stands, and whether its targets are instructions, is the business of code as
//! a whole.
#![tactic(auto)]

mod allowed;
mod fault;
mod instr;
mod laws;
mod numbers;
mod reading;
mod sizes;
mod switches;
mod writing;

pub use allowed::is_allowed;
pub use fault::Fault;
pub use instr::{Instr, LookupSwitch, TableSwitch};
pub use laws::{bad_opcode_stays, read_is_written, row_tells_instruction, written_is_read};
pub use reading::instr_of;
pub use sizes::size_of;
pub use writing::put_instr;
