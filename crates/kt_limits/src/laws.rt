//! The laws of limits. A body has nothing to do: the contract is the law.

ghost use Rattle.kt_limits.specs.Place.{AreJudgedOnce, NeverComesBack};

/// A unit is within limits or refused at one place, and not both.
#[tactic(auto, using(crate::proofs::Judged::judged_once))]
pub fn units_are_judged_once()
    ensures { AreJudgedOnce }
{}

/// What passes a limit passes it with more behind it.
#[tactic(auto, using(crate::proofs::Judged::never_comes_back))]
pub fn limits_stay_passed()
    ensures { NeverComesBack }
{}
