use thiserror::Error;

/// Why a row was not added.
#[derive(Clone, Copy, Debug, PartialEq, Eq, Error)]
pub enum PrefFault {
    #[error("no room for a preference")]
    Full,
    #[error("out of memory")]
    NoMemory,
}
