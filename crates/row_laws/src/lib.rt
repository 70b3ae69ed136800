//! Rows that firings make, and that steps leave, are fit for a decision.
#![tactic(auto)]

ghost use Rattle.row_laws.specs.Kept as kept;
ghost use Rattle.row_laws.specs.Known as known_rows;
ghost use Rattle.row_laws.specs.Made as made_rows;

/// What firings make is in range, and what changes rows leaves them so. Rows that are known to a step are known to a
/// decision.
pub fn rows_fit_decisions()
    ensures wishes { made_rows.MadeAreInRange }
    ensures rows { made_rows.RowsOfWishesAreInRange }
    ensures made { made_rows.RowsMadeAreInRange }
    ensures joined { kept.JoinedKeepRange }
    ensures added { kept.AddedKeepRange }
    ensures retracted { kept.RetractedKeepRange }
    ensures dropped { kept.DroppedKeepRange }
    ensures settled { kept.SettledKeepRange }
    ensures wave { kept.WaveKeepsRange }
    ensures known { known_rows.KnownRowsAreKnown }
{}
