// The calls of a session, and waves for a rule.
ghost use Rattle.soar_cycle.specs.Agents.{IsSoundAgent};

use super::anew::starts_anew;
use super::parts::{input, production};
use super::steps::goes_down;
use match_direct::Direct;
use outstanding::Compared;
use soar_cycle::{Agent, Phase, Stop, Waved};
use soar_sym::{Sym, Text, is_symbol};
use std::alloc::Global;

/// Whether the calls of a session give what they should, a rule fires, and decisions make substates.
pub fn takes_calls(alloc: Global, agent: &mut Agent<Compared<Direct>>) -> Result<bool, Stop>
    requires { IsSoundAgent agent.old }
{
    if !takes_a_rule(alloc, agent)? {
        return Ok(false);
    }
    if !goes_down(alloc, agent)? {
        return Ok(false);
    }
    starts_anew(alloc, agent)
}

/// Whether inputs and a rule are taken, and the rule fires once.
fn takes_a_rule(alloc: Global, agent: &mut Agent<Compared<Direct>>) -> Result<bool, Stop>
    requires { IsSoundAgent agent.old }
    ensures { IsSoundAgent agent.new }
{
    if !takes_inputs(alloc, agent)? {
        return Ok(false);
    }
    if !loads(alloc, agent)? {
        return Ok(false);
    }
    fires_once(alloc, agent)
}

/// Whether the first identifier of a letter is given, one input is there at once, of which level 1 tells nothing, and
/// another that is queued is not.
fn takes_inputs(alloc: Global, agent: &mut Agent<Compared<Direct>>) -> Result<bool, Stop>
    requires { IsSoundAgent agent.old }
    ensures { IsSoundAgent agent.new }
{
    let given = agent.fresh(b'Q')?;
    agent.queue(true, input(1))?;
    let mut out = Text::new(alloc);
    agent.input_now(true, input(2), &mut out)?;
    let first = Sym::Ident {
        letter: b'Q',
        number: 1,
    };
    let memory = agent.memory();
    Ok(
        is_symbol(given, first)
            && memory.find(input(1)).is_none()
            && memory.find(input(2)) == Some(6)
            && out.as_str().is_empty(),
    )
}

/// Whether a rule that matches the top state has one instance, and no explanation.
fn loads(alloc: Global, agent: &mut Agent<Compared<Direct>>) -> Result<bool, Stop>
    requires { IsSoundAgent agent.old }
    ensures { IsSoundAgent agent.new }
{
    agent.load(production(alloc)?)?;
    let instances = agent.conflict()?;
    Ok(instances.len() == 1 && agent.chain(1).is_none())
}

/// Whether there is a wave to do, and then none.
fn fires_once(alloc: Global, agent: &mut Agent<Compared<Direct>>) -> Result<bool, Stop>
    requires { IsSoundAgent agent.old }
    ensures { IsSoundAgent agent.new }
{
    let mut out = Text::new(alloc);
    let first = agent.wave(Phase::Proposal, &mut out)?;
    let second = agent.wave(Phase::Application, &mut out)?;
    Ok(first == Waved::Went && second == Waved::Rest && out.as_str().is_empty())
}
