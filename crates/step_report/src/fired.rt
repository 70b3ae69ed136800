// What is told of a firing: its line, then the preferences that it made, the actions that it dropped, and what it wrote.
ghost use Rattle.std.specs.Prelude.{[], ◌∷◌, map, OnOk};
ghost use Rattle.defs_soar.specs.Events.{drops};
ghost use Rattle.trace_laws.specs.Events.{AreEventsKnown, IsEventKnown};
ghost use Rattle.wave_entries.specs.Entries.{heading_event, held_event, told_events};
ghost use Rattle.step_report.specs.Saying.{SaysEvents};

use crate::text::say_text;
use defs_soar::Dropped;
use soar_sym::{NoMemory, SymTable, Text};
use wave_entries::{Heading, HeldWish, Told, say_drop, say_firing, say_lesson, say_wish};

/// Appends what is told of a firing: its line (level 3), its preferences and dropped actions (level 5), and its text at
/// every level. Of what learning told without a firing that is its line alone.
pub fn say_fired(
    watch: u8,
    table: &SymTable,
    told: &Told,
    out: &mut Text,
    mid_line: &mut bool,
) -> Result<(), NoMemory>
    requires { AreEventsKnown table.now (told_events told.now) }
    ensures { OnOk result (SaysEvents watch table.now (told_events told.now) mid_line.old out.old mid_line.new out.new) }
{
    say_heading(watch, table, &told.heading, out, mid_line)?;
    say_wishes(watch, table, told.wishes.as_slice(), out, mid_line)?;
    say_drops(watch, table, told.dropped.as_slice(), out, mid_line)?;
    say_text(told.text.as_str(), out, mid_line)?;
    Ok(())
}

/// Appends the line of a firing: that of its rule, or that of what was learned.
#[tactic(auto, unfolding(defs_soar::specs::Trace::pieces_of))]
fn say_heading(
    watch: u8,
    table: &SymTable,
    heading: &Heading,
    out: &mut Text,
    mid_line: &mut bool,
) -> Result<(), NoMemory>
    requires { IsEventKnown table.now (heading_event heading.now) }
    ensures { OnOk result (SaysEvents watch table.now (heading_event heading.now ∷ []) mid_line.old out.old mid_line.new out.new) }
{
    match heading {
        Heading::Fires {
            number,
            name,
            instance,
        } => say_firing(watch, table, *number, *name, instance, out, mid_line),
        Heading::Learns(lesson) => say_lesson(watch, table, lesson, out, mid_line),
    }
}

fn say_wishes(
    watch: u8,
    table: &SymTable,
    wishes: &[HeldWish],
    out: &mut Text,
    mid_line: &mut bool,
) -> Result<(), NoMemory>
    requires { AreEventsKnown table.now (map held_event wishes.now) }
    ensures { OnOk result (SaysEvents watch table.now (map held_event wishes.now) mid_line.old out.old mid_line.new out.new) }
{
    'wishes: for held in wishes {
        say_wish(watch, table, &held.wish, held.by, out, mid_line)?;
    }
    Ok(())
}

fn say_drops(
    watch: u8,
    table: &SymTable,
    dropped: &[Dropped],
    out: &mut Text,
    mid_line: &mut bool,
) -> Result<(), NoMemory>
    ensures { OnOk result (SaysEvents watch table.now (map drops dropped.now) mid_line.old out.old mid_line.new out.new) }
{
    'dropped: for action in dropped {
        say_drop(watch, *action, out, mid_line)?;
    }
    Ok(())
}
