use defs_soar::Mode;
use soar_prefs::Prefs;
use soar_sym::SymTable;
use soar_wm::Memory;
use std::alloc::Global;

/// What a decision looks at and leaves as it is. `random` are the words that wait for draws.
#[derive(Clone, Copy)]
pub struct View<'a> {
    pub alloc: Global,
    pub table: &'a SymTable,
    pub prefs: &'a Prefs,
    pub memory: &'a Memory,
    pub mode: Mode,
    pub random: &'a [u64],
}
