// Phases: waves until nothing is pending (Soar manual, chapter 2, elaboration cycle).
ghost use Rattle.std.specs.Prelude.{◌≡◌, [], ◌∷◌, OnOk};
ghost use Rattle.defs_soar.specs.Agents.{Agent as AgentOf};
ghost use Rattle.defs_soar.specs.Events.{begins};
ghost use Rattle.trace_lines.specs.Saying.{part_of};
ghost use Rattle.cycle_parts.specs.Details.{part_of as cycle_part_of};
ghost use Rattle.cycle_parts.specs.Saying.{SaysEvents};
ghost use Rattle.cycle_parts.specs.Bonds.{Bond};
ghost use Rattle.cycle_phases.specs.Courses.{Goes, IsEndOf, ended_as, phase_course, phased};
ghost use Rattle.cycle_phases.specs.Going.{GoesPhase, cut_events};
ghost use Rattle.cycle_parts.specs.Lawful.{IsOfLawful};
ghost use Rattle.cycle_parts.specs.Seen.{IsSound};
ghost use Rattle.cycle_parts.specs.Stands.{Stands};

use cycle_parts::{CyclePart, Engine, Outstanding, Parts, Stop, Waved, begin_part, say_cut_at};
use soar_sym::{NoMemory, Text};
use std::alloc::Global;
use trace_lines::Phase;

/// How a phase ended: nothing was pending, or it was cut with work still pending, or the agent is halted.
#[derive(Clone, Copy, PartialEq, Eq)]
pub enum Ended {
    Quiet,
    Cut,
    Halted,
}

/// Runs a phase: tells that it begins, what its waves do, and that it was cut, where it was.
pub fn run_phase<M: Outstanding>(
    engine: &mut Engine<M>,
    alloc: Global,
    phase: Phase,
    out: &mut Text,
    mid_line: &mut bool,
) -> Result<Ended, Stop>
    requires sound { IsSound engine.old.parts }
    requires lawful { IsOfLawful engine.old.parts }
    requires bond { Bond (M.rules engine.old.matcher) (M.elements engine.old.matcher) (M.failed engine.old.matcher) (M.knows engine.old.matcher) engine.old.parts }
    ensures phase { (s : AgentOf) → Stands engine.old.parts s → Goes engine.old.parts.settings.watch mid_line.old (phase_course phase s) engine.new.parts mid_line.new out.old out.new result }
    ensures end { (s : AgentOf) → Stands engine.old.parts s → IsEndOf (phased phase s) result }
    ensures settings { engine.new.parts.settings ≡ engine.old.parts.settings }
    ensures sound { OnOk result (IsSound engine.new.parts) }
    ensures lawful { OnOk result (IsOfLawful engine.new.parts) }
    ensures bond { OnOk result (Bond (M.rules engine.new.matcher) (M.elements engine.new.matcher) (M.failed engine.new.matcher) (M.knows engine.new.matcher) engine.new.parts) }
{
    begin_phase(&engine.parts, phase, out, mid_line)?;
    let cut = run_waves(engine, alloc, phase, out, mid_line)?;
    end_phase(&engine.parts, phase, cut, out, mid_line)?;
    Ok(ended_as(cut, engine.parts.halted))
}

fn ended_as(cut: bool, halted: bool) -> Ended
    ensures { result ≡ ended_as cut halted }
{
    if cut {
        Ended::Cut
    } else if halted {
        Ended::Halted
    } else {
        Ended::Quiet
    }
}

/// Runs the waves of a phase, until nothing is pending, a firing halts, or there were as many as are allowed. Tells
/// whether the phase is cut, with work still pending.
fn run_waves<M: Outstanding>(
    engine: &mut Engine<M>,
    alloc: Global,
    phase: Phase,
    out: &mut Text,
    mid_line: &mut bool,
) -> Result<bool, Stop>
    requires sound { IsSound engine.old.parts }
    requires lawful { IsOfLawful engine.old.parts }
    requires bond { Bond (M.rules engine.old.matcher) (M.elements engine.old.matcher) (M.failed engine.old.matcher) (M.knows engine.old.matcher) engine.old.parts }
    ensures waves { (s : AgentOf) → Stands engine.old.parts s → GoesPhase engine.old.parts.settings.watch mid_line.old (phased phase s) engine.new.parts mid_line.new out.old out.new result }
    ensures settings { engine.new.parts.settings ≡ engine.old.parts.settings }
    ensures sound { OnOk result (IsSound engine.new.parts) }
    ensures lawful { OnOk result (IsOfLawful engine.new.parts) }
    ensures bond { OnOk result (Bond (M.rules engine.new.matcher) (M.elements engine.new.matcher) (M.failed engine.new.matcher) (M.knows engine.new.matcher) engine.new.parts) }
{
    let mut left = engine.parts.settings.max_elaborations;
    'waves: while left > 0 {
        match engine.wave(alloc, phase, out, mid_line)? {
            Waved::Went => left -= 1,
            Waved::Rest => return Ok(false),
            Waved::Halted => return Ok(false),
        }
    }
    engine.has_work(alloc, phase)
}

/// Appends the line that begins a phase.
fn begin_phase(
    parts: &Parts,
    phase: Phase,
    out: &mut Text,
    mid_line: &mut bool,
) -> Result<(), NoMemory>
    ensures { OnOk result (SaysEvents parts.now.settings.watch parts.now.table (begins (part_of phase) ∷ []) mid_line.old out.old mid_line.new out.new) }
{
    begin_part(
        parts.settings.watch,
        &parts.table,
        part_of(phase),
        out,
        mid_line,
    )
}

/// Appends the line of a cut, where a phase is cut.
fn end_phase(
    parts: &Parts,
    phase: Phase,
    cut: bool,
    out: &mut Text,
    mid_line: &mut bool,
) -> Result<(), NoMemory>
    ensures { OnOk result (SaysEvents parts.now.settings.watch parts.now.table (cut_events (part_of phase) cut) mid_line.old out.old mid_line.new out.new) }
{
    if cut {
        say_cut_at(parts.settings.watch, &parts.table, phase, out, mid_line)?;
    }
    Ok(())
}

/// A phase as a part of a cycle.
fn part_of(phase: Phase) -> CyclePart
    ensures { cycle_part_of result ≡ part_of phase }
{
    match phase {
        Phase::Proposal => CyclePart::Proposal,
        Phase::Application => CyclePart::Application,
    }
}
