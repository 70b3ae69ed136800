// Cycles: input, proposal, decision, application, output (Soar manual, chapter 2, execution cycle).
ghost use Rattle.std.specs.Prelude.{◌≡◌, ℕ, IfOk, OnOk};
ghost use Rattle.defs_soar.specs.Agents.{Agent as AgentOf};
ghost use Rattle.defs_soar.specs.Cycle.{cycle, then_output};
ghost use Rattle.defs_soar.specs.Decision.{decided_by};
ghost use Rattle.defs_soar.specs.Learning.{with_learning};
ghost use Rattle.cycle_parts.specs.Bonds.{Bond};
ghost use Rattle.cycle_phases.specs.Courses.{Goes};
ghost use Rattle.cycle_phases.specs.Cycling.{GoesOn, with_application, with_decision, with_input, with_proposals};
ghost use Rattle.cycle_parts.specs.Lawful.{IsOfLawful};
ghost use Rattle.cycle_parts.specs.Seen.{IsSound};
ghost use Rattle.cycle_parts.specs.Stands.{Stands};

use crate::phase::run_phase;
use cycle_parts::{Engine, Outstanding, Stop};
use soar_sym::Text;
use std::alloc::Global;
use trace_lines::Phase;

/// Runs a cycle, and tells whether the agent is halted in the end. After a halt the phases before output are left out.
pub fn run_cycle<M: Outstanding>(
    engine: &mut Engine<M>,
    alloc: Global,
    out: &mut Text,
    mid_line: &mut bool,
) -> Result<bool, Stop>
    requires sound { IsSound engine.old.parts }
    requires lawful { IsOfLawful engine.old.parts }
    requires bond { Bond (M.rules engine.old.matcher) (M.elements engine.old.matcher) (M.failed engine.old.matcher) (M.knows engine.old.matcher) engine.old.parts }
    ensures cycle { (s : AgentOf) → Stands engine.old.parts s → Goes engine.old.parts.settings.watch mid_line.old (cycle decided_by with_learning s) engine.new.parts mid_line.new out.old out.new result }
    ensures halted { IfOk result (λ halted. halted ≡ engine.new.parts.halted) }
    ensures settings { engine.new.parts.settings ≡ engine.old.parts.settings }
    ensures sound { OnOk result (IsSound engine.new.parts) }
    ensures lawful { OnOk result (IsOfLawful engine.new.parts) }
    ensures bond { OnOk result (Bond (M.rules engine.new.matcher) (M.elements engine.new.matcher) (M.failed engine.new.matcher) (M.knows engine.new.matcher) engine.new.parts) }
{
    take_input(engine, alloc, out, mid_line)?;
    propose(engine, alloc, out, mid_line)?;
    decide(engine, alloc, out, mid_line)?;
    apply(engine, alloc, out, mid_line)?;
    give_output(engine, alloc, out, mid_line)?;
    Ok(engine.parts.halted)
}

fn take_input<M: Outstanding>(
    engine: &mut Engine<M>,
    alloc: Global,
    out: &mut Text,
    mid_line: &mut bool,
) -> Result<(), Stop>
    requires sound { IsSound engine.old.parts }
    requires lawful { IsOfLawful engine.old.parts }
    requires bond { Bond (M.rules engine.old.matcher) (M.elements engine.old.matcher) (M.failed engine.old.matcher) (M.knows engine.old.matcher) engine.old.parts }
    ensures course { (watch : ℕ) → GoesOn watch with_input engine.old.parts engine.new.parts mid_line.old mid_line.new out.old out.new result }
    ensures settings { engine.new.parts.settings ≡ engine.old.parts.settings }
    ensures sound { OnOk result (IsSound engine.new.parts) }
    ensures lawful { OnOk result (IsOfLawful engine.new.parts) }
    ensures bond { OnOk result (Bond (M.rules engine.new.matcher) (M.elements engine.new.matcher) (M.failed engine.new.matcher) (M.knows engine.new.matcher) engine.new.parts) }
{
    engine.take_input(alloc, out, mid_line)
}

fn propose<M: Outstanding>(
    engine: &mut Engine<M>,
    alloc: Global,
    out: &mut Text,
    mid_line: &mut bool,
) -> Result<(), Stop>
    requires sound { IsSound engine.old.parts }
    requires lawful { IsOfLawful engine.old.parts }
    requires bond { Bond (M.rules engine.old.matcher) (M.elements engine.old.matcher) (M.failed engine.old.matcher) (M.knows engine.old.matcher) engine.old.parts }
    ensures course { (watch : ℕ) → GoesOn watch with_proposals engine.old.parts engine.new.parts mid_line.old mid_line.new out.old out.new result }
    ensures settings { engine.new.parts.settings ≡ engine.old.parts.settings }
    ensures sound { OnOk result (IsSound engine.new.parts) }
    ensures lawful { OnOk result (IsOfLawful engine.new.parts) }
    ensures bond { OnOk result (Bond (M.rules engine.new.matcher) (M.elements engine.new.matcher) (M.failed engine.new.matcher) (M.knows engine.new.matcher) engine.new.parts) }
{
    run_phase(engine, alloc, Phase::Proposal, out, mid_line)?;
    Ok(())
}

fn decide<M: Outstanding>(
    engine: &mut Engine<M>,
    alloc: Global,
    out: &mut Text,
    mid_line: &mut bool,
) -> Result<(), Stop>
    requires sound { IsSound engine.old.parts }
    requires lawful { IsOfLawful engine.old.parts }
    requires bond { Bond (M.rules engine.old.matcher) (M.elements engine.old.matcher) (M.failed engine.old.matcher) (M.knows engine.old.matcher) engine.old.parts }
    ensures course { (watch : ℕ) → GoesOn watch with_decision engine.old.parts engine.new.parts mid_line.old mid_line.new out.old out.new result }
    ensures settings { engine.new.parts.settings ≡ engine.old.parts.settings }
    ensures sound { OnOk result (IsSound engine.new.parts) }
    ensures lawful { OnOk result (IsOfLawful engine.new.parts) }
    ensures bond { OnOk result (Bond (M.rules engine.new.matcher) (M.elements engine.new.matcher) (M.failed engine.new.matcher) (M.knows engine.new.matcher) engine.new.parts) }
{
    if engine.parts.halted {
        return Ok(());
    }
    engine.decide(alloc, out, mid_line)?;
    Ok(())
}

fn apply<M: Outstanding>(
    engine: &mut Engine<M>,
    alloc: Global,
    out: &mut Text,
    mid_line: &mut bool,
) -> Result<(), Stop>
    requires sound { IsSound engine.old.parts }
    requires lawful { IsOfLawful engine.old.parts }
    requires bond { Bond (M.rules engine.old.matcher) (M.elements engine.old.matcher) (M.failed engine.old.matcher) (M.knows engine.old.matcher) engine.old.parts }
    ensures course { (watch : ℕ) → GoesOn watch with_application engine.old.parts engine.new.parts mid_line.old mid_line.new out.old out.new result }
    ensures settings { engine.new.parts.settings ≡ engine.old.parts.settings }
    ensures sound { OnOk result (IsSound engine.new.parts) }
    ensures lawful { OnOk result (IsOfLawful engine.new.parts) }
    ensures bond { OnOk result (Bond (M.rules engine.new.matcher) (M.elements engine.new.matcher) (M.failed engine.new.matcher) (M.knows engine.new.matcher) engine.new.parts) }
{
    if engine.parts.halted {
        return Ok(());
    }
    run_phase(engine, alloc, Phase::Application, out, mid_line)?;
    Ok(())
}

fn give_output<M: Outstanding>(
    engine: &mut Engine<M>,
    alloc: Global,
    out: &mut Text,
    mid_line: &mut bool,
) -> Result<(), Stop>
    requires sound { IsSound engine.old.parts }
    requires lawful { IsOfLawful engine.old.parts }
    requires bond { Bond (M.rules engine.old.matcher) (M.elements engine.old.matcher) (M.failed engine.old.matcher) (M.knows engine.old.matcher) engine.old.parts }
    ensures course { (watch : ℕ) → GoesOn watch then_output engine.old.parts engine.new.parts mid_line.old mid_line.new out.old out.new result }
    ensures settings { engine.new.parts.settings ≡ engine.old.parts.settings }
    ensures sound { OnOk result (IsSound engine.new.parts) }
    ensures lawful { OnOk result (IsOfLawful engine.new.parts) }
    ensures bond { OnOk result (Bond (M.rules engine.new.matcher) (M.elements engine.new.matcher) (M.failed engine.new.matcher) (M.knows engine.new.matcher) engine.new.parts) }
{
    engine.give_output(alloc, out, mid_line)
}
