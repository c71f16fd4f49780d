//! A law of the rules on lengths, as the contract of a function that does nothing.

ghost use Rattle.cob_copybook_rules.specs.LengthRules.{FitBreaksNone};

/// A record that is fit breaks no rule on lengths.
pub fn breaks_no_length_rule()
    ensures { FitBreaksNone }
{}
