//! Laws of agents: explanations from a part of the history, what goals depend on as the history
//! grows, what is left when goals have gone, and that learning ends.
#![tactic(auto)]

ghost use Rattle.agent_laws.specs.Dependence as dependence;
ghost use Rattle.agent_laws.specs.Ending as ending;
ghost use Rattle.agent_laws.specs.NewGoals as new_goals;
ghost use Rattle.agent_laws.specs.RecordSteps as steps;
ghost use Rattle.agent_laws.specs.Records as records;
ghost use Rattle.agent_laws.specs.Trims as trims;
ghost use Rattle.agent_laws.specs.Worked as worked;

/// An explanation is the same from a part of the history, if this has all that its roots reach.
pub fn explanations_need_what_they_reach()
    ensures numbers { records.NumbersByRecord }
    ensures chains { records.ChainsByRecord }
    ensures roots { records.RootsReachMore }
    ensures agents { records.ChainsByRecordOfAgent }
{}

/// Such a part is kept by leaving out what no root reaches in it, and by adding each new firing.
pub fn parts_are_kept()
    ensures rising { records.RisingAreApart }
    ensures fewer { records.FewerRootsNeedLess }
    ensures parts { records.PartsOfParts }
    ensures join { records.FiringsJoin }
{}

/// The record of an agent stays one: steps without firings leave it as it is, a wave's firings join
/// it, and what no root reaches in it may go.
pub fn records_stay()
    ensures first { steps.FirstHasNoRecord }
    ensures anew { steps.StartingAnewHasNoRecord }
    ensures input { steps.InputKeepsRecord }
    ensures output { steps.OutputKeepsRecord }
    ensures inputs { steps.InputsKeepRecord }
    ensures decision { steps.DecisionKeepsRecord }
    ensures learning { steps.LearningKeepsOrder }
    ensures doing_without { steps.DoingWithoutKeepsOrder }
    ensures waves { steps.WavesJoinRecord }
    ensures shrink { steps.RecordsMayShrink }
{}

/// As the history grows, a goal depends on what it did, and then on what the new firings add.
pub fn dependencies_grow()
    ensures grow { dependence.DependenciesGrow }
    ensures turns { dependence.DependenciesInTurn }
    ensures kept { dependence.TagsByRecord }
    ensures waves { dependence.WavesAddDependencies }
    ensures goals { dependence.GoalsDependOnMore }
    ensures left { dependence.GoalsLeftDependAsBefore }
    ensures nothing { dependence.NewGoalsDependOnNothing }
{}

/// The goals of past firings were given by the letters, so a goal that is new depends on nothing.
pub fn new_goals_depend_on_nothing()
    ensures next { new_goals.NextGoalDependsOnNothing }
    ensures first { new_goals.FirstGoalsAreGiven }
    ensures anew { new_goals.AnewGoalsAreGiven }
    ensures input { new_goals.InputKeepsGoals }
    ensures output { new_goals.OutputKeepsGoals }
    ensures inputs { new_goals.InputsKeepGoals }
    ensures decision { new_goals.DecisionKeepsGoals }
    ensures learning { new_goals.LearningKeepsGoals }
    ensures doing_without { new_goals.DoingWithoutKeepsGoals }
    ensures waves { new_goals.WavesKeepGoals }
{}

/// When goals have gone, what is left is settled, and no goal has lost what it depends on.
pub fn trimming_ends()
    ensures trimmed { trims.TrimmingEnds }
    ensures resettled { trims.ResettlingEnds }
{}

/// Each round of learning is about firings of higher goals, and after the last nothing is left to
/// learn from.
pub fn learning_ends()
    ensures rounds { ending.RoundsRise }
    ensures last { ending.LearningEnds }
    ensures firings { ending.FiringsGoOnWithin }
    ensures waves { ending.WavesLearnAll }
{}

/// A small history that was worked out by hand.
pub fn worked_history()
    ensures { worked.IsWorked }
{}
