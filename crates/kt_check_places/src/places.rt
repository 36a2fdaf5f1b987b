//! Places of a body.

ghost use Rattle.kt_check_names.specs.Views.{scope_in, scope_of};
ghost use Rattle.kt_check_names.specs.declared.known.Known as k;
ghost use Rattle.kt_check_names.specs.declared.scopes.NamedLocal.{NamedLocal};
ghost use Rattle.kt_check_places.specs.Places.{context_at, state_at, state_in};
ghost use Rattle.kt_check_rules.specs.Loops.{repeated};
ghost use Rattle.std.specs.Prelude.{◌≡◌};

use kt_check_names::{BodyContext, Frames, Known, NamedLocal};
use std::alloc::Global;

/// A place of a body: what stays through the body, and which names mean locals there.
#[derive(Clone, Copy)]
pub struct Place<'a> {
    pub alloc: Global,
    pub context: &'a BodyContext<'a>,
    pub frames: &'a Frames<'a>,
    /// The locals with lower numbers are declared outside the innermost loop
    pub outside: usize,
}

impl<'a> Place<'a> {
    /// The place in other scopes.
    pub fn with_frames<'b>(&'b self, frames: &'b Frames<'b>) -> Place<'b>
        ensures frames { result.frames.now ≡ frames.now }
        ensures context { context_at result ≡ context_at self.now }
        ensures outside { result.outside ≡ self.now.outside }
    {
        Place {
            alloc: self.alloc,
            context: self.context,
            frames,
            outside: self.outside,
        }
    }

    /// The place at the beginning of a loop.
    #[tactic(auto, using(crate::proofs::Looped::repeated_is))]
    pub fn repeated<'b>(&'b self, known: &Known) -> Place<'b>
        ensures state { state_at result known.now ≡ repeated (state_at self.now known.now) }
        ensures frames { result.frames.now ≡ self.now.frames.now }
        ensures context { context_at result ≡ context_at self.now }
    {
        Place {
            alloc: self.alloc,
            context: self.context,
            frames: self.frames,
            outside: known.locals.len(),
        }
    }
}
