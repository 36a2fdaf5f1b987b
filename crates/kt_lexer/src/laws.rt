//! Laws of the definitions, each the contract of a function that does nothing.

ghost use Rattle.kt_lexer.specs.Sources.{SourceTokensOrRefused};
ghost use Rattle.kt_lexer.specs.Texts as spec;

/// A text has at most one list of tokens.
#[tactic(auto, using(crate::proofs::Whole::one_tokens))]
pub fn one_tokens()
    ensures { spec.OneTokens }
{}

/// A text has tokens, or a place at which it has none.
#[tactic(auto, using(crate::proofs::Whole::tokens_or_refused))]
pub fn tokens_or_refused()
    ensures { spec.TokensOrRefused }
{}

/// A text that has tokens has no place at which it has none.
#[tactic(auto, using(crate::proofs::Whole::tokens_exclude_refusal))]
pub fn not_both()
    ensures { spec.NotBoth }
{}

/// There is at most one place at which a text has no token.
#[tactic(auto, using(crate::proofs::Whole::one_refusal))]
pub fn one_refusal()
    ensures { spec.OneRefusal }
{}

/// A source has tokens, or is refused.
pub fn source_tokens_or_refused()
    ensures { SourceTokensOrRefused }
{}
