//! The constant pool of a class file, and the two notations that its texts are in: modified UTF-8 and descriptors.
#![tactic(auto)]

mod descriptor_kinds;
mod descriptor_reading;
pub mod descriptors;
pub mod entries;
pub mod errors;
pub mod laws;
pub mod modified;
pub mod pool;
mod spelling;

pub use descriptor_kinds::{is_field_descriptor, is_method_descriptor};
pub use descriptor_reading::read_descriptor;
pub use descriptors::{Descriptor, FieldType};
pub use entries::Entry;
pub use errors::{DescriptorErr, ModifiedErr, PoolErr};
pub use modified::{put_modified, read_modified};
pub use pool::Pool;
