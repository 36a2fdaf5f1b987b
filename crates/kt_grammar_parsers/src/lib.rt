//! A theory of parsers and languages, for tokens of any type.
//!
//! `specs/` has the steps of which a parser is made, the words of which a grammar is made, and what a sentence and the
//! place of a refusal are; `proofs/` shows when such a parser reads exactly a language, and refuses the first token
//! with which nothing can go on.
#![tactic(auto)]
