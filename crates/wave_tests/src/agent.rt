mod anew;
mod calls;
mod parts;
mod steps;

use calls::takes_calls;
use parts::new_agent;
use soar_cycle::Stop;
use std::alloc::Global;
use std::test::Fail;

#[test]
fn calls_answer_and_each_decision_makes_a_substate(rt: HostRuntime) -> Result<(), Fail> {
    assert!(rt; answers(rt.alloc())?);
    Ok(())
}

/// Whether each call of a new agent gives what it should. The agent is let go at one place, so that this is proved sooner.
fn answers(alloc: Global) -> Result<bool, Stop> {
    let mut agent = new_agent(alloc)?;
    takes_calls(alloc, &mut agent)
}
