use wave_parts::Changes;

/// What a decision did: what went from working memory and what came, and whether the limit of goals halted the agent.
#[derive(Drop)]
pub struct Decision {
    pub changes: Changes,
    pub halted: bool,
}
