use command_labels::Labels;
use defs_soar::Goal;
use kept_triples::Kept;
use soar_sym::{Letters, List, SymTable};
use soar_wm::Memory;
use std::alloc::Global;

/// What the operands of a command are looked up in.
#[derive(Clone, Copy)]
pub struct Lookup<'a> {
    pub alloc: Global,
    pub table: &'a SymTable,
    pub letters: &'a Letters,
    pub labels: &'a Labels,
    pub goals: &'a List<Goal>,
    pub memory: &'a Memory,
    /// The levels of what the goals reach over working memory, as they are kept.
    pub levels: &'a Kept,
}
