use defs_soar::Goal;
use soar_sym::Sym;
use std::alloc::Global;

/// What the actions of a firing read and leave as it is.
#[derive(Clone, Copy)]
pub struct Scene<'a> {
    pub alloc: Global,
    /// The names of the rule's variables.
    pub vars: &'a [Sym],
    pub goals: &'a [Goal],
}
