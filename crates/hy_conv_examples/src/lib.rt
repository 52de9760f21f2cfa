//! Worked examples of the rules on conventions and yields: small programs, each with the first rule that it breaks, computed by the
//! definitions. The functions do nothing; their contracts are tables. `docs/CONVENTIONS.md` has the rules.
#![tactic(auto)]

ghost use Rattle.hy_base.specs.declared.refusal.Rule.TheVariants as rule;
ghost use Rattle.hy_conv_examples.specs.Rows as row;

/// What is only lent, or bound by `let`, is not changed.
pub fn places_are_changed_rightly()
    ensures { row.Refuses rule.C1 row.unchangeable }
{}

/// `&` stands where it is wanted, and nowhere else.
pub fn marks_stand_where_wanted()
    ensures { row.Refuses rule.C2 row.badly_marked }
{}

/// Subscripts have the variant that a use picks.
pub fn subscripts_have_variants()
    ensures { row.Refuses rule.C3 row.without_variant }
{}

/// What is changed is a place.
pub fn changed_places_are_places()
    ensures { row.Refuses rule.C4 row.no_places }
{}

/// Each path through a body that yields has a `yield`.
pub fn paths_yield()
    ensures { row.Refuses rule.Y1 row.paths_without_yield }
{}

/// No path has two.
pub fn paths_yield_once()
    ensures { row.Refuses rule.Y2 row.yields_after_others }
{}

/// No `yield` stands in a loop.
pub fn no_loop_yields()
    ensures { row.Refuses rule.Y3 row.yields_in_loops }
{}

/// Bodies of subscripts that are `let` or `inout` yield, and no others.
pub fn subscripts_yield()
    ensures { row.Refuses rule.Y4 row.yields_elsewhere }
{}

/// Places are yielded, with a mark where they are lent for change.
pub fn places_are_yielded()
    ensures { row.Refuses rule.Y5 row.yielded_badly }
{}

/// Programs that break no rule on conventions or yields.
pub fn sound_programs()
    ensures { row.Accepts row.sound }
{}
