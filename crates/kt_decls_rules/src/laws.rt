//! A law of the definitions. A body has nothing to do: the contract is the law.

ghost use Rattle.kt_decls_rules.specs.Headers.{IsJudgedOnce};

/// The headers of a file are well formed, or refused at one place, and not both.
#[tactic(auto, using(crate::proofs::Judged::judged))]
pub fn headers_are_judged_once()
    ensures { IsJudgedOnce }
{}
