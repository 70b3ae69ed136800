//! Lines of the trace stay as they were written, and low levels stand alone.
#![tactic(auto)]

ghost use Rattle.trace_laws.specs.Tables as tables;
ghost use Rattle.trace_laws.specs.Events as events;
ghost use Rattle.trace_laws.specs.Levels as levels;

/// What is told with the words of its step is the same with each later table, and lines above a watch level leave
/// nothing at it.
pub fn lines_stay()
    ensures grown { tables.TablesGrow }
    ensures in_turn { tables.LaterInTurn }
    ensures known { tables.KnownStays }
    ensures symbols { tables.SymbolsKeep }
    ensures events_known { events.EventsStayKnown }
    ensures events { events.EventsKeep }
    ensures pieces { events.PiecesKeep }
    ensures pieces_in_turn { events.PiecesInTurn }
    ensures written_in_turn { levels.WrittenInTurn }
    ensures alone { levels.LowLevelsAlone }
    ensures filtered { levels.LowEventsAlone }
    ensures told { levels.LowEventsKeep }
{}
