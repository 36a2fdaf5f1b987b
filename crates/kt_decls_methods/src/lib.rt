//! The rules of overriding.
#![tactic(auto)]

pub mod describing;
pub mod grounded;
pub mod methods;
pub mod overriding;

pub use grounded::is_grounded;
pub use methods::is_fine_override;
