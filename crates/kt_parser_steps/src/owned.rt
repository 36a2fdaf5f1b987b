//! What was made already, and what is read next.

ghost use Rattle.std.specs.Prelude.{◌≡◌, Ok, Err, MatchResult};

/// Both, or the error of what comes next: what was made is let go with it.
pub fn beside<T: Drop, U, E>(made: T, next: Result<U, E>) -> Result<(T, U), E>
    ensures { MatchResult result (λ both. (both.0 ≡ made) × (next ≡ Ok both.1)) (λ error. next ≡ Err error) }
{
    match next {
        Ok(next) => Ok((made, next)),
        Err(error) => Err(error),
    }
}
