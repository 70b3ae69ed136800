ghost use Rattle.step_report.specs.Saying.{SaysInTurn};

/// Events said one list after the other are said as the two lists in one.
pub fn says_in_turn()
    ensures { SaysInTurn }
{}
