//! Stack map frames, both ways (JVMS SE 8 §4.7.4).
//!
//! A frame is kept expanded, with its offset and all its types, and is written against the frame before it, in the
//! first form that fits.
#![tactic(auto)]

pub mod laws;
