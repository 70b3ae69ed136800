//! Whole runs that were worked out by hand, each a fact that the check computes from the definition of the whole program; and laws of definitions.
#![tactic(auto)]

ghost use Rattle.defs_worked.specs.Matching as matching;
ghost use Rattle.defs_worked.specs.Refusals as refusals;
ghost use Rattle.defs_worked.specs.Support as support;
ghost use Rattle.defs_worked.specs.Operators as operators;
ghost use Rattle.defs_worked.specs.Goals as goals;
ghost use Rattle.defs_worked.specs.Present as present;
ghost use Rattle.defs_worked.specs.Learning as learning;

mod laws;

pub use laws::{laws_of_conditions, laws_of_decisions};

/// Matching and printing: whole runs that were worked out by hand.
pub fn worked_matching()
    ensures one_element_two_conditions { matching.OneElementTwoConditions }
    ensures same_kind_and_different { matching.SameKindAndDifferent }
    ensures nested_negation { matching.NestedNegation }
    ensures blocker_replaced { matching.BlockerReplaced }
    ensures read_and_print { matching.ReadAndPrint }
{}

/// Refused commands and productions: whole runs that were worked out by hand.
pub fn worked_refusals()
    ensures empty_input { refusals.EmptyInput }
    ensures float_refused { refusals.FloatRefused }
    ensures refused_productions { refusals.RefusedProductions }
    ensures refused_commands { refusals.RefusedCommands }
    ensures refused_syntax_alone { refusals.RefusedSyntaxAlone }
    ensures usage_watch_nine { refusals.UsageWatchNine }
    ensures named_file_missing { refusals.NamedFileMissing }
    ensures refusal_in_named_file { refusals.RefusalInNamedFile }
{}

/// Firing, support and output: whole runs that were worked out by hand.
pub fn worked_support()
    ensures support_passes_on { support.SupportPassesOn }
    ensures excise_live_instance { support.ExciseLiveInstance }
    ensures counter_never_rests { support.CounterNeverRests }
    ensures count_with_rejects { support.CountWithRejects }
    ensures output_line { support.OutputLine }
    ensures generate_three { support.GenerateThree }
{}

/// Operators and impasses: whole runs that were worked out by hand.
pub fn worked_operators()
    ensures hello_world { operators.HelloWorld }
    ensures hello_world_full_trace { operators.HelloWorldFullTrace }
    ensures run_after_halt { operators.RunAfterHalt }
    ensures conflict_of_two { operators.ConflictOfTwo }
    ensures conflict_with_a_third { operators.ConflictWithAThird }
    ensures constraint_failure { operators.ConstraintFailure }
    ensures rejected_beats_none { operators.RejectedBeatsNone }
    ensures kept_operator { operators.KeptOperator }
    ensures softmax_word_nine { operators.SoftmaxWordNine }
    ensures softmax_word_zero { operators.SoftmaxWordZero }
    ensures softmax_word_ten { operators.SoftmaxWordTen }
    ensures softmax_without_word { operators.SoftmaxWithoutWord }
    ensures tie_items_by_input { operators.TieItemsByInput }
{}

/// Goals that go with what they depend on: whole runs that were worked out by hand.
pub fn worked_goals()
    ensures dependency_gone { goals.DependencyGone }
    ensures dependency_gone_brief { goals.DependencyGoneBrief }
    ensures gone_from_one_depth { goals.GoneFromOneDepth }
{}

/// Learning: whole runs that were worked out by hand.
pub fn worked_learning()
    ensures learn_from_tie { learning.LearnFromTie }
    ensures stale_explanation { learning.StaleExplanation }
    ensures justified_local_negation { learning.JustifiedLocalNegation }
    ensures learned_without_negation { learning.LearnedWithoutNegation }
    ensures justified_learning_off { learning.JustifiedLearningOff }
    ensures ungrounded_substate { learning.UngroundedSubstate }
    ensures ungrounded_before_repair { learning.UngroundedBeforeRepair }
    ensures least_maker { learning.LeastMaker }
    ensures blocked_explanation { learning.BlockedExplanation }
    ensures goal_among_results { learning.GoalAmongResults }
    ensures result_without_learning { learning.ResultWithoutLearning }
    ensures result_with_learning { learning.ResultWithLearning }
{}

/// The program at its present stage: whole runs that were worked out by hand.
pub fn worked_present()
    ensures made_and_gone { present.MadeAndGone }
    ensures wrong_words { present.WrongWordsNow }
    ensures learning { present.LearningNow }
    ensures empty_input { present.EmptyInput }
    ensures one_element_twice { present.OneElementTwice }
    ensures replaced_and_barred { present.ReplacedAndBarred }
    ensures joined { present.Joined }
    ensures forms { present.Forms }
    ensures syntax { present.Syntax }
    ensures printed { present.Printed }
    ensures same_kind { present.SameKindNow }
    ensures nested { present.NestedNow }
    ensures refused { present.RefusedNow }
    ensures labelled { present.Labelled }
    ensures in_match_order { present.InMatchOrder }
    ensures file_missing { present.FileMissingNow }
    ensures quit_in_file { present.QuitInFileNow }
    ensures counted { present.CountedNow }
    ensures shown { present.ShownNow }
    ensures halted { present.HaltedNow }
    ensures queued { present.QueuedNow }
    ensures conflict { present.ConflictNow }
    ensures constraint { present.ConstraintNow }
    ensures kept { present.KeptNow }
    ensures tie_renewed { present.TieRenewedNow }
    ensures dependency_gone { present.DependencyGoneNow }
{}
