//! The declarations of a file, or the place of the first whose header isn't well formed.
#![tactic(auto)]

pub mod declaring;

pub use declaring::declare;
pub use kt_decls_headers::files::Decls;
