//! What is counted in a body.

ghost use Rattle.kt_sizes.specs.Capped.{cap, capped};
ghost use Rattle.kt_sizes.specs.Counting as spec;
ghost use Rattle.kt_sizes.specs.Counting.{◌&◌};
ghost use Rattle.std.specs.Prelude.{◌≡◌, ℕ};

/// What a body, or a part of one, counts for. A count that passes the greatest `u64` is said to be that.
#[derive(Clone, Copy, Debug, PartialEq, Eq)]
pub struct Sizes {
    /// Nodes of the tree, as far as they count.
    pub nodes: u64,
    /// The loops, the `try`s and the `catch`es among them.
    pub heavy: u64,
    /// What its lambda literals capture.
    pub captured: u64,
    /// Suspension points.
    pub points: u64,
    /// Variables that the compiler keeps for loops, `when` and `try`.
    pub kept: u64,
    /// One more than the greatest number of evaluated operands that wait at a suspension point; 0 where there is none.
    pub depth: u64,
}

impl Sizes {
    /// What counts for nothing.
    #[tactic(auto, unfolding(crate::specs::Capped::capped))]
    pub fn nothing() -> Sizes
        ensures { result ≡ capped spec.nothing }
    {
        Sizes {
            nodes: 0,
            heavy: 0,
            captured: 0,
            points: 0,
            kept: 0,
            depth: 0,
        }
    }

    /// A node.
    #[tactic(auto, unfolding(crate::specs::Capped::capped))]
    pub fn node() -> Sizes
        ensures { result ≡ capped spec.node }
    {
        Sizes {
            nodes: 1,
            ..Sizes::nothing()
        }
    }

    /// A `while`, a `do`, a `catch`.
    #[tactic(auto, unfolding(crate::specs::Capped::capped))]
    pub fn heavy_node() -> Sizes
        ensures { result ≡ capped spec.heavy_node }
    {
        Sizes {
            heavy: 1,
            ..Sizes::node()
        }
    }

    /// A `for`, which keeps its bound.
    #[tactic(auto, unfolding(crate::specs::Capped::capped))]
    pub fn for_node() -> Sizes
        ensures { result ≡ capped spec.for_node }
    {
        Sizes {
            heavy: 1,
            kept: 1,
            ..Sizes::node()
        }
    }

    /// A `when`, which keeps its subject.
    #[tactic(auto, unfolding(crate::specs::Capped::capped))]
    pub fn when_node() -> Sizes
        ensures { result ≡ capped spec.when_node }
    {
        Sizes {
            kept: 1,
            ..Sizes::node()
        }
    }

    /// A `try`, which keeps what its `finally` goes on with.
    #[tactic(auto, unfolding(crate::specs::Capped::capped))]
    pub fn try_node() -> Sizes
        ensures { result ≡ capped spec.try_node }
    {
        Sizes {
            heavy: 1,
            kept: 4,
            ..Sizes::node()
        }
    }

    /// A lambda literal with so many captures.
    #[tactic(auto, unfolding(crate::specs::Capped::capped))]
    pub fn lambda_node(captures: u64) -> Sizes
        ensures { result ≡ capped (spec.lambda_node captures) }
    {
        Sizes {
            captured: captures,
            ..Sizes::node()
        }
    }

    /// A suspension point, where it is one.
    #[tactic(auto, unfolding(crate::specs::Capped::capped))]
    pub fn point_if(suspends: bool) -> Sizes
        ensures { result ≡ capped (spec.point_if suspends) }
    {
        if suspends {
            Sizes {
                points: 1,
                depth: 1,
                ..Sizes::nothing()
            }
        } else {
            Sizes::nothing()
        }
    }

    /// Two parts together.
    #[tactic(auto, unfolding(crate::specs::Capped::capped, crate::specs::Counting::both))]
    pub fn beside(self, other: Sizes) -> Sizes
        ensures { (a b : Sizes) → self ≡ capped a → other ≡ capped b → result ≡ capped (a & b) }
    {
        Sizes {
            nodes: self.nodes.saturating_add(other.nodes),
            heavy: self.heavy.saturating_add(other.heavy),
            captured: self.captured.saturating_add(other.captured),
            points: self.points.saturating_add(other.points),
            kept: self.kept.saturating_add(other.kept),
            depth: self.depth.max(other.depth),
        }
    }

    /// The part, evaluated while so many operands wait.
    #[tactic(auto, unfolding(crate::specs::Capped::capped, crate::specs::Counting::behind))]
    pub fn behind(self, waiting: u64) -> Sizes
        ensures { (a : Sizes) (w : ℕ) → self ≡ capped a → waiting ≡ cap w → result ≡ capped (spec.behind w a) }
    {
        let depth = if self.depth == 0 {
            0
        } else {
            self.depth.saturating_add(waiting)
        };
        Sizes { depth, ..self }
    }
}
