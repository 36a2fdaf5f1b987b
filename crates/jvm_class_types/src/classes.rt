//! Classes, fields and methods (JVMS SE 8 §4.1, §4.5, §4.6, §4.7.3).

use crate::flags::{ClassFlags, FieldFlags, MethodFlags};
use crate::frames::Frame;
use jvm_code::Instr;
use jvm_pool::Pool;
use kt_base::Name;

/// A class or an interface (§4.1).
///
/// Names and descriptors stand as they are, and instructions have the indices of entries of `pool`.
#[derive(Debug, Drop)]
pub struct ClassFile {
    /// The constant pool of its class file.
    pub pool: Pool,
    pub flags: ClassFlags,
    /// The name of the class.
    pub name: Name,
    /// The name of the class above it.
    pub super_class: Name,
    /// The names of the interfaces directly above it.
    pub interfaces: Vec<Name>,
    pub fields: Vec<Field>,
    pub methods: Vec<Method>,
}

/// A field (§4.5).
#[derive(Debug, Drop)]
pub struct Field {
    pub flags: FieldFlags,
    pub name: Name,
    pub descriptor: Name,
}

/// A method (§4.6).
#[derive(Debug, Drop)]
pub struct Method {
    pub flags: MethodFlags,
    pub name: Name,
    pub descriptor: Name,
    /// Its code: `None` for one that is abstract.
    pub code: Option<Code>,
}

/// The code of a method (§4.7.3).
#[derive(Debug, Drop)]
pub struct Code {
    /// The greatest height of the operand stack, in units.
    pub max_stack: u16,
    /// How many units the local variables take.
    pub max_locals: u16,
    /// The instructions, each with its offset.
    pub instructions: Vec<(u32, Instr)>,
    /// The exception table, in the order in which it is searched.
    pub handlers: Vec<Handler>,
    /// The frames, in the order of their offsets.
    pub frames: Vec<Frame>,
}

/// An entry of the exception table (§4.7.3). Each offset is one in the code.
#[derive(Debug, Drop)]
pub struct Handler {
    /// Where the range begins that it covers.
    pub start: u16,
    /// Where that range has ended.
    pub end: u16,
    /// Where execution goes on.
    pub handler: u16,
    /// The name of the class that it catches: `None` for every throwable.
    pub catch: Option<Name>,
}
