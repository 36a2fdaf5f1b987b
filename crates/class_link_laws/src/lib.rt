//! What linking gives, as a law.
#![tactic(auto)]

ghost use Rattle.class_link_laws.specs.Closed.{LinkedAreClosed};

/// What a linked class names is a linked class, or a member of one.
pub fn linked_are_closed()
    ensures { LinkedAreClosed }
{}
