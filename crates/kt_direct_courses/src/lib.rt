//! The course of a coroutine by the end of its run: its events up to the first that has no answer, and its end.
#![tactic(auto)]

pub mod courses;

pub use courses::{Direct, class_name, course_of, main_of};
