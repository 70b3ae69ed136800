use defs_soar::{Impasse, Item};
use soar_sym::{List, Sym};

/// How the walk of a decision ends.
#[derive(Drop)]
pub enum Decided {
    /// An operator is selected at the last goal left, and whether that took a random word.
    Selects { operator: Sym, takes_word: bool },
    /// A substate is due below the last goal left, for this impasse over these values.
    Meets { why: Impasse, items: List<Item> },
}
