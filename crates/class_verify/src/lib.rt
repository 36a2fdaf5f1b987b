//! Verification of linked classes (JVMS SE 8 §4.10.1): a class is verified, or refused at the first offset at which a
//! rule fails.
#![tactic(auto)]

pub mod classes;
pub mod errors;
pub mod verified;

pub use errors::VerifyError;
pub use verified::{Verified, verify};
