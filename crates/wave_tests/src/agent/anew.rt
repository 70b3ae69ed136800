// Settings, rules that go, and starting anew.
ghost use Rattle.soar_cycle.specs.Agents.{IsSoundAgent};

use super::parts::{NAME, input};
use match_direct::Direct;
use outstanding::Compared;
use soar_cycle::{Agent, Phase, Stop};
use soar_sym::Text;
use std::alloc::Global;

/// Whether a rule goes, all but the settings is as at the start then, and level 4 tells of an input and of a phase.
pub fn starts_anew(alloc: Global, agent: &mut Agent<Compared<Direct>>) -> Result<bool, Stop>
    requires { IsSoundAgent agent.old }
{
    watch(agent, 4);
    Ok(excises(agent)? && forgets(agent)? && tells(alloc, agent)?)
}

fn watch(agent: &mut Agent<Compared<Direct>>, level: u8)
    requires { IsSoundAgent agent.old }
    ensures { IsSoundAgent agent.new }
{
    let mut settings = agent.settings();
    settings.watch = level;
    agent.set(settings);
}

/// Whether the rule that fired is no longer there, and its firing still counts.
fn excises(agent: &mut Agent<Compared<Direct>>) -> Result<bool, Stop>
    requires { IsSoundAgent agent.old }
    ensures { IsSoundAgent agent.new }
{
    let before = agent.counts();
    agent.excise(NAME);
    let after = agent.counts();
    let counted = after.firings == 1 && after.live == 1 && after.cycles == 1;
    Ok(before.productions == 1 && after.productions == 0 && counted)
}

/// Whether five elements are left, and no firing.
fn forgets(agent: &mut Agent<Compared<Direct>>) -> Result<bool, Stop>
    requires { IsSoundAgent agent.old }
    ensures { IsSoundAgent agent.new }
{
    agent.restart()?;
    let counts = agent.counts();
    let kept = agent.settings().watch == 4 && agent.prefs().len() == 0;
    Ok(counts.elements == 5 && counts.live == 0 && counts.cycles == 0 && kept)
}

/// Whether the element that comes is told, and the line that begins a phase.
fn tells(alloc: Global, agent: &mut Agent<Compared<Direct>>) -> Result<bool, Stop>
    requires { IsSoundAgent agent.old }
{
    let mut out = Text::new(alloc);
    agent.input_now(true, input(3), &mut out)?;
    agent.phase(Phase::Proposal, &mut out)?;
    Ok(out.as_str() == "+ 6: (I2 ^3 3)\n-- proposal\n")
}
