use soar_sym::Triple;

/// A change of the inputs that waits for the next input phase.
#[derive(Clone, Copy)]
pub struct Queued {
    /// Whether the triple joins the inputs; else it leaves them.
    pub adds: bool,

    /// The triple that joins or leaves.
    pub triple: Triple,
}
