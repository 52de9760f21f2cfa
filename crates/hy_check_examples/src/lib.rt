//! Worked examples of the rules on names and types: small programs, each with the first rule that it breaks, computed by the
//! definitions. The functions do nothing; their contracts are tables. `docs/NAMES.md` and `docs/TYPING.md` have the rules.
#![tactic(auto)]

ghost use Rattle.hy_base.specs.declared.refusal.Rule.TheVariants as rule;
ghost use Rattle.hy_tree.specs.declared.operator.Mode.TheVariants as mode;
ghost use Rattle.hy_types.specs.Types.{Int, Tuple, End};
ghost use Rattle.hy_check.specs.Places.{Temporary, Itself};
ghost use Rattle.hy_check_examples.specs.Programs.{programs};
ghost use Rattle.hy_check_examples.specs.Rows as row;

/// Names that are not declared, declared twice, or declared again in a block of their own.
pub fn names_are_declared_once()
    ensures unknown { row.Refuses rule.N1 row.unknown_names }
    ensures twice { row.Refuses rule.N2 row.declared_twice }
    ensures types { row.Refuses rule.N3 row.unknown_types }
    ensures members { row.Refuses rule.N4 row.unknown_members }
    ensures main { row.Refuses rule.N5 row.without_main }
    ensures again { row.Accepts row.named_again }
{}

/// What is wanted of operands and conditions.
pub fn operands_have_types()
    ensures { row.Refuses rule.T1 row.operands }
{}

/// What is wanted of values, arguments, elements and branches.
pub fn values_have_wanted_types()
    ensures { row.Refuses rule.T1 row.wanted_types }
{}

/// What is wanted of integers of the sized types.
pub fn integers_have_one_type()
    ensures { row.Refuses rule.T1 row.sized }
{}

/// Members, labels and counts that are not there.
pub fn calls_have_declarations()
    ensures { row.Refuses rule.T2 row.calls }
{}

/// What is no conversion.
pub fn conversions_take_one_integer()
    ensures { row.Refuses rule.T2 row.not_conversions }
{}

/// Products that hold themselves.
pub fn no_product_holds_itself()
    ensures { row.Refuses rule.T3 row.endless }
{}

/// Type arguments that no argument determines.
pub fn type_arguments_are_determined()
    ensures { row.Refuses rule.T4 row.undetermined }
{}

/// Paths without a result.
pub fn paths_return()
    ensures { row.Refuses rule.T5 row.no_return }
{}

/// Copies of what is not copyable.
pub fn copies_are_of_copyable_types()
    ensures { row.Refuses rule.T6 row.uncopyable }
{}

/// Programs that break no rule on types.
pub fn sound_programs()
    ensures { row.Accepts row.sound }
{}

/// Programs with sized integers that break no rule on types.
pub fn sound_programs_with_sized_integers()
    ensures { row.Accepts row.sized_sound }
{}

/// Calls that pick `let`.
pub fn let_is_picked()
    ensures { row.Picks mode.Let row.picks_let }
{}

/// Calls that pick `inout`.
pub fn inout_is_picked()
    ensures { row.Picks mode.Inout row.picks_inout }
{}

/// Calls that pick `sink`.
pub fn sink_is_picked()
    ensures { row.Picks mode.Sink row.picks_sink }
{}

/// A target that picks `set`.
pub fn set_is_picked()
    ensures { row.Picks mode.Set row.picks_set }
{}

/// Expressions of type `Int`.
pub fn expressions_of_type_int()
    ensures { row.HaveType Int row.integers }
{}

/// Calls of type `()`.
pub fn calls_without_result()
    ensures { row.HaveType (Tuple End) row.nothings }
{}

/// Whole programs that break no rule on types.
pub fn sound_whole_programs()
    ensures { row.Accepts programs }
{}

/// Fields of owned results, which are temporaries.
pub fn owned_results_are_temporaries()
    ensures { row.Begins Temporary 1 row.temporaries }
{}

/// Places in `self`, with its field named alone or not.
pub fn fields_are_in_self()
    ensures { row.Begins Itself 2 row.in_self }
{}
