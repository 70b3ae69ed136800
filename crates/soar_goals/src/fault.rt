use thiserror::Error;

/// Why no goal was added.
#[derive(Clone, Copy, Debug, PartialEq, Eq, Error)]
pub enum GoalFault {
    /// There are a hundred goals.
    #[error("the goals are too deep")]
    TooDeep,
    #[error("out of memory")]
    NoMemory,
}
