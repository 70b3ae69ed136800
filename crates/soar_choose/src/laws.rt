ghost use Rattle.soar_choose.specs.Laws.{LeftIsSome, LeftIsAcceptable, NoneLeftIsBeaten, OneIsChosen, OwnNamesCountForNothing, OrderCountsForNothing};

/// What the choice means, in the words of the subject.
pub fn choice_laws()
    ensures some { LeftIsSome }
    ensures acceptable { LeftIsAcceptable }
    ensures unbeaten { NoneLeftIsBeaten }
    ensures own_names { OwnNamesCountForNothing }
    ensures one { OneIsChosen }
    ensures order { OrderCountsForNothing }
{}
