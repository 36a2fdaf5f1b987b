//! Values and objects of the machine, the heap of a coroutine, and what leaves it for another one.
#![tactic(auto)]

pub mod accessing;
pub mod class_names;
pub mod exporting;
pub mod exports;
pub mod heaps;
pub mod importing;
pub mod imports;
pub mod laws;
pub mod objects;
pub mod path;
pub mod stack;
pub mod traces;
pub mod values;

pub use accessing::Change;
pub use class_names::ClassName;
pub use exports::{ExportErr, export};
pub use heaps::{Heap, Note, Objects};
pub use imports::import;
pub use objects::{Instance, Object, Phase};
pub use stack::Stack;
pub use traces::{Parcel, Step, Trace};
pub use values::{Field, FieldKind, Value};
