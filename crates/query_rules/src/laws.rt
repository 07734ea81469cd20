//! A law of histories.
ghost use Rattle.query_rules.specs.Laws.{AloneIsServed};

/// A law: a history of one caller, or of none, has no `busy` and no `late`.
pub fn who_is_alone_is_served()
    ensures { AloneIsServed }
{}
