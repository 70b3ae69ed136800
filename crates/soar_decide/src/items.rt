// The values of an impasse, with the tags of their marked elements.
ghost use Rattle.std.specs.Prelude.{◌≡◌, map, IfOk};
ghost use Rattle.defs_soar.specs.Verdicts.{item_for, items_for, marked_tag};

use crate::view::View;
use defs_soar::{Item, Scored};
use soar_sym::architecture::OPERATOR;
use soar_sym::{List, NoMemory, Sym, Triple};
use soar_wm::Memory;

/// An item for each value.
pub fn items_for(view: &View<'_>, goal: Sym, scored: &[Scored]) -> Result<List<Item>, NoMemory>
    ensures { IfOk result (λ items. items ≡ items_for view.now.memory.now.elements goal scored.now) }
{
    let mut items = List::new(view.alloc);
    'scored: for one in scored {
        items.push(item_for(view.memory, goal, one))?;
    }
    Ok(items)
}

fn item_for(memory: &Memory, goal: Sym, scored: &Scored) -> Item
    ensures { result ≡ item_for memory.now.elements goal scored.now }
{
    Item {
        value: scored.value,
        numeric: scored.numeric,
        tag: marked_tag(memory, goal, scored.value),
    }
}

/// The tag of the marked element of an operator of a goal, and 0 where there is none.
pub fn marked_tag(memory: &Memory, goal: Sym, operator: Sym) -> u32
    ensures { result ≡ marked_tag memory.now.elements goal operator }
{
    let marked = Triple {
        id: goal,
        attr: OPERATOR,
        value: operator,
        accept: true,
    };
    match memory.find(marked) {
        Some(tag) => tag,
        None => 0,
    }
}
