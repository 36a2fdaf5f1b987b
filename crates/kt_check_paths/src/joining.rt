//! Where paths join.

ghost use Rattle.kt_check_rules.specs.Loops as loops;
ghost use Rattle.kt_check_rules.specs.States as states;
ghost use Rattle.kt_check_rules.specs.States.{path};
ghost use Rattle.kt_flow.specs.Facts as spec;
ghost use Rattle.kt_flow.specs.Rows.{facts_form};
ghost use Rattle.std.specs.Prelude.{◌≡◌, ◌∷◌, [], IfOk, map};

use crate::rows::from_parts;
use kt_base::NoMemory;
use kt_check_names::facts::copy_facts;
use kt_flow::Facts;

/// A path, and whether it gets to its end.
#[derive(Drop)]
pub struct Way {
    pub completes: bool,
    pub facts: Facts,
}

/// What all of several paths have in common, in the order of the text.
pub fn meet_all(first: Facts, others: &[Facts]) -> Result<Facts, NoMemory>
    ensures { IfOk result (λ f. facts_form f ≡ spec.meet_all (facts_form first) (map facts_form others.now)) }
{
    let mut all = first;
    for each in others {
        all = all.meet(each)?;
    }
    Ok(all)
}

/// The same; where there is no path, what was known before.
pub fn met(before: Facts, ways: &[Facts]) -> Result<Facts, NoMemory>
    ensures { IfOk result (λ f. facts_form f ≡ states.met (facts_form before) (map facts_form ways.now)) }
{
    match ways {
        [] => Ok(before),
        [first, rest @ ..] => meet_all(copy_facts(first)?, rest),
    }
}

/// Behind two branches: what those that complete have in common; where none does, what was known before.
pub fn joined(before: Facts, first: Way, second: Way) -> Result<Facts, NoMemory>
    ensures { IfOk result (λ f. facts_form f ≡ states.joined (facts_form before)
        (path first.completes (facts_form first.facts) ∷ path second.completes (facts_form second.facts) ∷ [])) }
{
    if first.completes {
        if second.completes {
            first.facts.meet(&second.facts)
        } else {
            Ok(first.facts)
        }
    } else if second.completes {
        Ok(second.facts)
    } else {
        Ok(before)
    }
}

/// Behind a loop whose body may not be done at all, by the ways out of it: the body assigns nothing surely.
pub fn maybe_done(before: &Facts, end: Facts, ways: &[Facts]) -> Result<Facts, NoMemory>
    ensures { IfOk result (λ f. facts_form f ≡
        loops.maybe_done (facts_form before.now) (facts_form end) (map facts_form ways.now)) }
{
    let types = met(copy_facts(before)?, ways)?;
    let maybe = meet_all(end, ways)?;
    from_parts(&types, before, &maybe)
}
