use defs_soar::{Impasse, Item, Selection};
use soar_sym::List;

/// What a goal comes to in a decision.
#[derive(Drop)]
pub enum Outcome {
    /// Its selected operator is among those that are left.
    Stays,
    /// An operator that is left is drawn, and whether that took a random word.
    Selects {
        selection: Selection,
        takes_word: bool,
    },
    /// None is left, or several that no preference tells apart, with the values that this is about.
    Impasse {
        why: Impasse,
        items: List<Item>,
    },
}
