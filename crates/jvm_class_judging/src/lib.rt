//! The grammar of a class file as judgements of what a class holds (JVMS SE 8 chapter 4).
#![tactic(auto)]
