// Phases, decisions and cycles of an agent whose rule has fired.
ghost use Rattle.soar_cycle.specs.Agents.{IsSoundAgent};

use match_direct::Direct;
use outstanding::Compared;
use soar_cycle::{Agent, Ended, Phase, Stop};
use soar_sym::Text;
use std::alloc::Global;

/// Whether a decision makes a substate of the top goal, and the cycle after it one of that.
pub fn goes_down(alloc: Global, agent: &mut Agent<Compared<Direct>>) -> Result<bool, Stop>
    requires { IsSoundAgent agent.old }
    ensures { IsSoundAgent agent.new }
{
    let mut out = Text::new(alloc);
    let rests = rests(agent, &mut out)?;
    let goes_on = goes_on(agent, &mut out)?;
    let deep = agent.goals().len() == 3;
    let said = out.as_str() == SAID;
    Ok(rests && goes_on && deep && said)
}

/// The lines of the decision and of the cycle.
const SAID: &str = "0:   ==>S: S2 (state no-change)\n1:     ==>S: S3 (state no-change)\n";

/// Whether neither a decision nor a cycle halts the agent.
fn goes_on(agent: &mut Agent<Compared<Direct>>, out: &mut Text) -> Result<bool, Stop>
    requires { IsSoundAgent agent.old }
    ensures { IsSoundAgent agent.new }
{
    let decided = agent.decide(out)?;
    let ran = agent.cycle(out)?;
    Ok(!decided && !ran)
}

/// Whether nothing is pending in both phases.
fn rests(agent: &mut Agent<Compared<Direct>>, out: &mut Text) -> Result<bool, Stop>
    requires { IsSoundAgent agent.old }
    ensures { IsSoundAgent agent.new }
{
    let proposal = agent.phase(Phase::Proposal, out)?;
    let application = agent.phase(Phase::Application, out)?;
    Ok(proposal == Ended::Quiet && application == Ended::Quiet)
}
