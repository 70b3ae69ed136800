// What settling tells: the goals that went, and the elements that went and came.
ghost use Rattle.std.specs.Prelude.{◌++◌, map, OnOk};
ghost use Rattle.defs_soar.specs.Events.{comes, goes};
ghost use Rattle.defs_soar.specs.Resettling.{removal_events};
ghost use Rattle.trace_laws.specs.Events.{AreEventsKnown};
ghost use Rattle.step_report.specs.Reports.{removed_seen, settled_events};
ghost use Rattle.step_report.specs.Saying.{SaysEvents};

use soar_sym::{List, NoMemory, Sym, SymTable, Text};
use soar_wm::Element;
use wave_entries::{Changes, say_gone, say_new, say_removal};

/// What settling did that can be told: the goals that went, each with its depth, and what went from working memory and
/// what came.
#[derive(Drop)]
pub struct Settled {
    pub removed: List<Removed>,
    pub changes: Changes,
}

/// A goal that went, and the depth at which it stood, the top at 1.
#[derive(Clone, Copy)]
pub struct Removed {
    pub goal: Sym,
    pub depth: u64,
}

/// Appends what settling tells: the goals that went first, then the elements that went, then those that came.
pub fn say_settled(
    watch: u8,
    table: &SymTable,
    settled: &Settled,
    out: &mut Text,
    mid_line: &mut bool,
) -> Result<(), NoMemory>
    requires { AreEventsKnown table.now (settled_events settled.now) }
    ensures { OnOk result (SaysEvents watch table.now (settled_events settled.now) mid_line.old out.old mid_line.new out.new) }
{
    say_removals(watch, table, settled.removed.as_slice(), out, mid_line)?;
    say_changes(watch, table, &settled.changes, out, mid_line)?;
    Ok(())
}

/// Appends the line of each goal that went (level 2).
pub fn say_removals(
    watch: u8,
    table: &SymTable,
    removed: &[Removed],
    out: &mut Text,
    mid_line: &mut bool,
) -> Result<(), NoMemory>
    requires { AreEventsKnown table.now (removal_events (map removed_seen removed.now)) }
    ensures { OnOk result (SaysEvents watch table.now (removal_events (map removed_seen removed.now)) mid_line.old out.old mid_line.new out.new) }
{
    'removed: for gone in removed {
        say_removal(watch, table, gone.goal, out, mid_line)?;
    }
    Ok(())
}

/// Appends the line of each element that went, then that of each that came (level 4).
pub fn say_changes(
    watch: u8,
    table: &SymTable,
    changes: &Changes,
    out: &mut Text,
    mid_line: &mut bool,
) -> Result<(), NoMemory>
    requires { AreEventsKnown table.now (map goes changes.now.gone ++ map comes changes.now.new) }
    ensures { OnOk result (SaysEvents watch table.now (map goes changes.now.gone ++ map comes changes.now.new) mid_line.old out.old mid_line.new out.new) }
{
    say_all_gone(watch, table, changes.gone.as_slice(), out, mid_line)?;
    say_all_new(watch, table, changes.new.as_slice(), out, mid_line)?;
    Ok(())
}

fn say_all_gone(
    watch: u8,
    table: &SymTable,
    elements: &[Element],
    out: &mut Text,
    mid_line: &mut bool,
) -> Result<(), NoMemory>
    requires { AreEventsKnown table.now (map goes elements.now) }
    ensures { OnOk result (SaysEvents watch table.now (map goes elements.now) mid_line.old out.old mid_line.new out.new) }
{
    'elements: for element in elements {
        say_gone(watch, table, element, out, mid_line)?;
    }
    Ok(())
}

fn say_all_new(
    watch: u8,
    table: &SymTable,
    elements: &[Element],
    out: &mut Text,
    mid_line: &mut bool,
) -> Result<(), NoMemory>
    requires { AreEventsKnown table.now (map comes elements.now) }
    ensures { OnOk result (SaysEvents watch table.now (map comes elements.now) mid_line.old out.old mid_line.new out.new) }
{
    'elements: for element in elements {
        say_new(watch, table, element, out, mid_line)?;
    }
    Ok(())
}
