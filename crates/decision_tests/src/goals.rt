ghost use Rattle.std.specs.Prelude.{◌≡◌, IfOk, length};
ghost use Rattle.soar_sym.specs.Words.{Texts};
ghost use Rattle.soar_goals.specs.Known.{AreGoalsKnown, AreItemsKnown};

use soar_goals::{Goal, GoalFault, Goals, Impasse, Item, Selection};
use soar_sym::architecture::{
    ATTRIBUTE, CHOICES, IMPASSE, INPUT_LINK, IO, ITEM, ITEM_COUNT, MULTIPLE, NIL, NON_NUMERIC,
    NON_NUMERIC_COUNT, OPERATOR, OUTPUT_LINK, QUIESCENCE, STATE, SUPERSTATE, T, TIE, TYPE,
};
use soar_sym::{List, NoMemory, Sym, SymTable, Triple, is_symbol};
use std::alloc::Global;
use std::test::Fail;

const I1: Sym = Sym::Ident {
    letter: b'I',
    number: 1,
};

const I2: Sym = Sym::Ident {
    letter: b'I',
    number: 2,
};

const I3: Sym = Sym::Ident {
    letter: b'I',
    number: 3,
};

const S1: Sym = Sym::Ident {
    letter: b'S',
    number: 1,
};

const S2: Sym = Sym::Ident {
    letter: b'S',
    number: 2,
};

/// The item 2, which has a number, and the item 1, which has none.
fn two_items(alloc: Global) -> Result<List<Item>, NoMemory>
    ensures { IfOk result (λ items. (words : Texts) → AreItemsKnown words items) }
{
    let first = Item {
        value: Sym::Int(2),
        numeric: true,
        tag: 7,
    };
    let second = Item {
        value: Sym::Int(1),
        numeric: false,
        tag: 6,
    };
    Ok(List::from_slice(alloc, &[first, second])?)
}

/// A goal of no impasse at the top, and one below it of a tie of two items.
fn two_goals(alloc: Global) -> Result<Goals, NoMemory>
    ensures two { IfOk result (λ goals. length goals ≡ 2) }
    ensures known { IfOk result (λ goals. (words : Texts) → AreGoalsKnown words goals) }
{
    let mut goals = Goals::new(alloc, S1)?;
    match goals.push(S2, Impasse::Tie, two_items(alloc)?) {
        Ok(()) => Ok(goals),
        Err(_) => Err(NoMemory),
    }
}

/// The elements of the two goals: identifiers before integers before words, which go by their texts.
const ELEMENTS: [(Sym, Sym, Sym); 16] = [
    (I1, INPUT_LINK, I2),
    (I1, OUTPUT_LINK, I3),
    (S1, IO, I1),
    (S1, SUPERSTATE, NIL),
    (S1, TYPE, STATE),
    (S2, ATTRIBUTE, OPERATOR),
    (S2, CHOICES, MULTIPLE),
    (S2, IMPASSE, TIE),
    (S2, ITEM, Sym::Int(1)),
    (S2, ITEM, Sym::Int(2)),
    (S2, ITEM_COUNT, Sym::Int(2)),
    (S2, NON_NUMERIC, Sym::Int(1)),
    (S2, NON_NUMERIC_COUNT, Sym::Int(1)),
    (S2, QUIESCENCE, T),
    (S2, SUPERSTATE, S1),
    (S2, TYPE, STATE),
];

fn is(triple: Triple, id: Sym, attr: Sym, value: Sym) -> bool {
    is_symbol(triple.id, id)
        && is_symbol(triple.attr, attr)
        && is_symbol(triple.value, value)
        && !triple.accept
}

fn are(triples: &[Triple], wanted: &[(Sym, Sym, Sym)]) -> bool {
    if triples.len() != wanted.len() {
        return false;
    }
    for (triple, (id, attr, value)) in triples.iter().zip(wanted) {
        if !is(*triple, *id, *attr, *value) {
            return false;
        }
    }
    true
}

fn elements_are(alloc: Global, wanted: &[(Sym, Sym, Sym)]) -> Result<bool, NoMemory> {
    let table = SymTable::new(alloc)?;
    let goals = two_goals(alloc)?;
    goals.law(&table);
    let elements = goals.elements(alloc, &table)?;
    Ok(are(elements.as_slice(), wanted))
}

#[test]
fn the_elements_of_two_goals_are_in_order(rt: HostRuntime) -> Result<(), Fail> {
    assert!(rt; elements_are(rt.alloc(), &ELEMENTS)?);
    Ok(())
}

const SELECTION: Selection = Selection {
    operator: Sym::Int(2),
    tag: 7,
    maker: 3,
};

fn is_selected(goals: &[Goal], at: usize) -> bool {
    match goals.get(at) {
        Some(goal) => goal.selected == Some(SELECTION),
        None => false,
    }
}

fn has_items(goals: &[Goal], at: usize, count: usize) -> bool {
    match goals.get(at) {
        Some(goal) => goal.items.len() == count,
        None => false,
    }
}

/// Whether just the goal of this depth is changed by a selection, and keeps it when its items are renewed.
fn changes(alloc: Global) -> Result<bool, NoMemory> {
    let mut goals = two_goals(alloc)?;
    goals.select(2, Some(SELECTION));
    let selected = is_selected(goals.list().as_slice(), 1)
        && has_items(goals.list().as_slice(), 1, 2);
    goals.renew(2, List::new(alloc));
    let goals = goals.list().as_slice();
    Ok(selected && is_selected(goals, 1) && !is_selected(goals, 0) && has_items(goals, 1, 0))
}

#[test]
fn a_change_leaves_all_else(rt: HostRuntime) -> Result<(), Fail> {
    assert!(rt; changes(rt.alloc())?);
    Ok(())
}

/// Adds substates from S2 on, until there are a hundred goals.
fn fill(goals: &mut Goals, alloc: Global) -> u32 {
    for number in 2..=200 {
        let id = Sym::Ident {
            letter: b'S',
            number,
        };
        match goals.push(id, Impasse::StateNoChange, List::new(alloc)) {
            Ok(()) => continue,
            Err(GoalFault::TooDeep) => return number,
            Err(GoalFault::NoMemory) => return 0,
        }
    }
    0
}

/// Takes the goal of a depth away where it is there.
fn cut(goals: &mut Goals, depth: usize) {
    if depth > 1 && depth <= goals.list().len() {
        goals.cut(depth);
    }
}

/// The identifier of the last goal.
fn last(goals: &Goals) -> Sym {
    match goals.list().as_slice().last() {
        Some(goal) => goal.id,
        None => Sym::Int(0),
    }
}

/// Whether the hundred-and-first goal is refused, and a goal takes all below it along when it is cut.
fn fills(alloc: Global) -> Result<bool, NoMemory> {
    let mut goals = Goals::new(alloc, S1)?;
    let refused = fill(&mut goals, alloc) == 101 && goals.list().len() == 100;
    cut(&mut goals, 3);
    Ok(refused && goals.list().len() == 2 && is_symbol(last(&goals), S2))
}

#[test]
fn there_are_a_hundred_goals_at_most(rt: HostRuntime) -> Result<(), Fail> {
    assert!(rt; fills(rt.alloc())?);
    Ok(())
}
