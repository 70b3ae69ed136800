use command_labels::Labels;
use outstanding::Outstanding;
use soar_cycle::{Agent, Standing};

/// The state of a run between two commands: the agent, the labels that stand for identifiers, and whether the session
/// stands for a state.
#[derive(Drop)]
pub struct Session<M: Outstanding> {
    pub agent: Agent<M>,
    pub labels: Labels,
    pub standing: Standing,
}
