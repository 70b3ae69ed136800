use defs_soar::{Goal, Impasse};
use soar_sym::{List, NoMemory, Sym};
use std::alloc::Global;

/// The identifier of this letter and of number 1, or the word of this digit.
pub const fn symbol(name: u8) -> Sym {
    match name {
        b'0'..=b'9' => Sym::Word(name as u32),
        letter => Sym::Ident { letter, number: 1 },
    }
}

/// Goals of these identifiers, from the top.
pub fn goals_of(alloc: Global, names: &[u8]) -> Result<List<Goal>, NoMemory> {
    let mut goals = List::new(alloc);
    for name in names {
        goals.push(Goal {
            id: symbol(*name),
            impasse: Impasse::Top,
            items: List::new(alloc),
            selected: None,
        })?;
    }
    Ok(goals)
}
