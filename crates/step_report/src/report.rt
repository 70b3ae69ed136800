// What a wave tells: the firings that it took back, those that it made with what it learned, and what it settled to.
ghost use Rattle.std.specs.Prelude.{◌++◌, flat_map, map, OnOk};
ghost use Rattle.defs_soar.specs.Waves.{retract_event};
ghost use Rattle.wave_entries.specs.Living.{live_seen};
ghost use Rattle.trace_laws.specs.Events.{AreEventsKnown};
ghost use Rattle.wave_entries.specs.Entries.{told_events};
ghost use Rattle.step_report.specs.Reports.{report_events};
ghost use Rattle.step_report.specs.Saying.{SaysEvents};

use crate::fired::say_fired;
use crate::settled::{Settled, say_settled};
use soar_sym::{List, NoMemory, SymTable, Text};
use wave_entries::{Live, Told, say_retraction};

/// What a wave did that can be told. What learning told is among the firings, in its place.
#[derive(Drop)]
pub struct Report {
    pub retracted: List<Live>,
    pub fired: List<Told>,
    pub settled: Settled,
}

/// Appends what a wave tells: the firings that it took back first, then those that it made, then what it settled to.
pub fn say_report(
    watch: u8,
    table: &SymTable,
    report: &Report,
    out: &mut Text,
    mid_line: &mut bool,
) -> Result<(), NoMemory>
    requires { AreEventsKnown table.now (report_events report.now) }
    ensures { OnOk result (SaysEvents watch table.now (report_events report.now) mid_line.old out.old mid_line.new out.new) }
{
    say_retractions(watch, table, report.retracted.as_slice(), out, mid_line)?;
    say_firings(watch, table, report.fired.as_slice(), out, mid_line)?;
    say_settled(watch, table, &report.settled, out, mid_line)?;
    Ok(())
}

/// Appends the line of each firing that was taken back (level 3).
fn say_retractions(
    watch: u8,
    table: &SymTable,
    retracted: &[Live],
    out: &mut Text,
    mid_line: &mut bool,
) -> Result<(), NoMemory>
    requires { AreEventsKnown table.now (map retract_event (map live_seen retracted.now)) }
    ensures { OnOk result (SaysEvents watch table.now (map retract_event (map live_seen retracted.now)) mid_line.old out.old mid_line.new out.new) }
{
    'retracted: for live in retracted {
        say_retraction(
            watch,
            table,
            live.number,
            live.name,
            &live.instance,
            out,
            mid_line,
        )?;
    }
    Ok(())
}

/// Appends what is told of each firing, and of learning.
fn say_firings(
    watch: u8,
    table: &SymTable,
    fired: &[Told],
    out: &mut Text,
    mid_line: &mut bool,
) -> Result<(), NoMemory>
    requires { AreEventsKnown table.now (flat_map told_events fired.now) }
    ensures { OnOk result (SaysEvents watch table.now (flat_map told_events fired.now) mid_line.old out.old mid_line.new out.new) }
{
    'fired: for told in fired {
        say_fired(watch, table, told, out, mid_line)?;
    }
    Ok(())
}
