//! The explanation of a learned rule stays what it was when the rule was learned, for as long as the
//! rule is loaded.
#![tactic(auto)]

ghost use Rattle.explanation_laws.specs.Moments as moments;
ghost use Rattle.explanation_laws.specs.Printed as printed;
ghost use Rattle.explanation_laws.specs.Staying as staying;
ghost use Rattle.explanation_laws.specs.Stays as stays;

/// The first program is numbered, and what came of a program in two steps came of it.
pub fn programs_are_numbered()
    ensures agent { stays.FirstAgentIsNumbered }
    ensures session { stays.FirstSessionIsNumbered }
    ensures itself { staying.LaterItself }
    ensures twice { staying.LaterTwice }
{}

/// Nothing that an agent does changes the explanation of a rule that is still loaded: explanations
/// join with the rules that are learned, and go with rules that go.
pub fn agents_keep_explanations()
    ensures learning { stays.LearningStays }
    ensures found { stays.LearnedIsFound }
    ensures work { stays.WorkStays }
    ensures waves { stays.WavesStay }
    ensures decisions { stays.DecisionsStay }
    ensures cycles { stays.CyclesStay }
    ensures runs { stays.WholeRunsStay }
{}

/// From each wave of a run explanations stay to the end of its phase, of its cycle and of the run; so
/// the explanation that a wave makes is that of its rule at the end of the run, where the rule is
/// still loaded.
pub fn runs_keep_explanations()
    ensures phases { moments.PhasesLast }
    ensures cycles { moments.CyclesLast }
    ensures runs { moments.RunsLast }
    ensures kept { moments.ExplanationsLast }
    ensures learned { moments.LearnedLasts }
{}

/// No command changes the explanation of a rule that is still loaded, whether it does something or
/// is refused.
pub fn sessions_keep_explanations()
    ensures orders { stays.OrdersStay }
    ensures commands { stays.CommandsStay }
    ensures whole { stays.WholeCommandsStay }
    ensures all { stays.AllCommandsStay }
{}

/// As long as a rule is loaded, `explain` prints the explanation with which it was learned, whatever
/// commands came in between.
pub fn explanations_stay()
    ensures lines { printed.LinesStay }
    ensures kept { printed.LaterHasIt }
    ensures later { printed.LaterPrints }
    ensures explained { printed.ExplanationsStay }
    ensures always { printed.ExplainedFromTheStart }
    ensures printed { printed.PrintedLinesStay }
{}
