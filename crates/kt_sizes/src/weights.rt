//! The weight of a body.

ghost use Rattle.kt_sizes.specs.Capped.{cap, capped};
ghost use Rattle.kt_sizes.specs.Weight as spec;
ghost use Rattle.kt_typed.specs.Bodies.{fun_form};
ghost use Rattle.std.specs.Prelude.{◌≡◌};

use crate::counting::statements_sizes;
use crate::sizes::Sizes;
use kt_typed::TypedFun;

impl Sizes {
    /// The weight of a body that counts so, with so many captures, parameters and locals.
    #[tactic(auto, using(crate::proofs::Products::weight_from))]
    pub fn weight(self, captures: u64, parameters: u64, locals: u64) -> u64
        ensures { (s : Sizes) → self ≡ capped s → result ≡ cap (spec.weight_of s captures parameters locals) }
    {
        let nodes = self.nodes.saturating_add(parameters).saturating_mul(48);
        let heavy = self.heavy.saturating_mul(240);
        let captured = self.captured.saturating_add(captures).saturating_mul(8);
        let variables = locals
            .saturating_add(self.kept)
            .saturating_add(self.depth.saturating_sub(1))
            .saturating_add(8);
        let points = self.points.saturating_mul(24).saturating_mul(variables);
        nodes
            .saturating_add(heavy)
            .saturating_add(captured)
            .saturating_add(points)
            .saturating_add(256)
    }
}

/// The weight of a body: 48 for each node, 240 more for each loop, `try` and `catch`, 8 for what it and its lambda
/// literals capture, and 24 for each variable and eight more at each suspension point. Where that is more than a `u64`
/// counts, it is `u64::MAX`. It takes no memory.
pub fn weight(body: &TypedFun) -> u64
    ensures { result ≡ cap (spec.weight (fun_form body.now)) }
{
    let counted = statements_sizes(body.statements.as_slice());
    counted.weight(
        body.captures.len() as u64,
        body.parameters as u64,
        body.locals.len() as u64,
    )
}
