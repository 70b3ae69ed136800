//! Laws of settling: one pass is enough, and what a step changes.
#![tactic(auto)]

ghost use Rattle.defs_soar.specs.Laws.{SettledStays, SettledIsWithin, ReachedIsWalkedTo};
ghost use Rattle.settling_laws.specs.Once as once;
ghost use Rattle.settling_laws.specs.Changes as changes;
ghost use Rattle.settling_laws.specs.Cases as cases;

/// What is settled stays as it is, and is part of what there was.
pub fn laws_of_settling()
    ensures stays { SettledStays }
    ensures within { SettledIsWithin }
{}

/// What a goal reaches is what a walk from it leads to.
pub fn laws_of_levels()
    ensures walked { ReachedIsWalkedTo }
{}

/// One pass settles, and all that is held then is kept.
pub fn settling_takes_one_pass()
    ensures at_once { once.SettledAtOnce }
    ensures two_rounds { once.TwoRoundsSettle }
    ensures kept { once.KeptAtOnce }
    ensures held { once.KeptIsHeld }
    ensures levels { once.LevelsAtOnce }
{}

/// What is held and kept in a slot is told by what is in that slot, and the level of its identifier.
pub fn slots_are_apart()
    ensures slot { changes.SlotIsHeldByItsRows }
    ensures triple { changes.TripleIsHeldByItsRows }
    ensures when { changes.TripleIsHeldWhen }
    ensures held { changes.SameSlotIsHeld }
    ensures rows { changes.RowsStayByLevel }
    ensures inputs { changes.InputsStayByLevel }
    ensures top { changes.TopIsKnownAtFirst }
    ensures kept { changes.SlotIsKeptByLevel }
    ensures same { changes.SameSlotIsKept }
    ensures kept_when { changes.TripleIsKeptWhen }
    ensures slot_tells { changes.SlotTellsItsTriples }
    ensures rows_tell { changes.RowsTellTheirTriple }
    ensures same_support { changes.SameSupportIsKept }
{}

/// What stays and what is new of working memory is told by what went and what came.
pub fn elements_by_change()
    ensures stay { changes.ElementsStayByGone }
    ensures order { changes.OrderIsOfMembers }
    ensures apart { changes.TableTellsApart }
    ensures after { changes.ElementsAfterByChange }
    ensures lost { changes.TagIsLostWhenGone }
{}

/// Variablized in which no row came or went hold the same rows.
pub fn changed_slots_cover()
    ensures added { changes.AddedIsCovered }
    ensures dropped { changes.DroppedAreCovered }
{}

/// Levels are told by links, and what is right link by link is the levels.
pub fn levels_are_local()
    ensures links { changes.LevelsAreOfLinks }
    ensures depths { changes.DepthsAreLevels }
{}

/// Small states that were worked out by hand, settled both ways.
pub fn worked_settling()
    ensures one_round_is_not_enough { cases.OneRoundIsNotEnough }
    ensures row_of_input_goes { cases.RowOfInputGoes }
    ensures chain_goes { cases.ChainGoes }
    ensures circle_stays { cases.CircleStays }
    ensures rejected_link_is_cut { cases.RejectedLinkIsCut }
    ensures reject_goes_with_its_input { cases.RejectGoesWithItsInput }
    ensures marked_leads_on { cases.MarkedLeadsOn }
    ensures goal_keeps_its_level { cases.GoalKeepsItsLevel }
    ensures held_twice { cases.HeldTwice }
    ensures no_goals { cases.NoGoals }
    ensures one_goal_twice { cases.OneGoalTwice }
{}
