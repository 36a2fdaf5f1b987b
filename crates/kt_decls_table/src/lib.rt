#![tactic(auto)]

pub mod apart;
pub mod constants;
pub mod functions;
pub mod type_parameters;

pub use apart::are_distinct;
pub use constants::{constant_header, top_constant};
pub use functions::{TopFunction, is_reserved, top_function};
pub use type_parameters::{TypeParameters, declared_type_parameters};
