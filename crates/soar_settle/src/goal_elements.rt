// The elements of the goals themselves (Soar manual, chapter 2, impasses and substates).
ghost use Rattle.std.specs.Prelude.{◌≡◌, ◌<◌, ◌^◌, [], ◌∷◌, ◌++◌, length, map, pos, OnOk};
ghost use Rattle.soar_sym.specs.declared.symbol.Sym.TheVariants.{Int};
ghost use Rattle.defs_soar.specs.Architecture.{item_count_word, item_word, non_numeric_count_word, non_numeric_word};
ghost use Rattle.defs_soar.specs.Goals as meaning;

use defs_soar::{Goal, Impasse, Item};
use soar_sym::architecture::{
    ATTRIBUTE, CHOICES, CONFLICT, CONSTRAINT_FAILURE, IMPASSE, INPUT_LINK, IO, ITEM, ITEM_COUNT,
    MULTIPLE, NIL, NO_CHANGE, NON_NUMERIC, NON_NUMERIC_COUNT, NONE, OPERATOR, OUTPUT_LINK,
    QUIESCENCE, STATE, SUPERSTATE, T, TIE, TYPE,
};
use soar_sym::{List, NoMemory, Sym, Triple};

/// The identifier that the top goal's links hang on.
const IO_ID: Sym = Sym::Ident {
    letter: b'I',
    number: 1,
};

const INPUT_LINK_ID: Sym = Sym::Ident {
    letter: b'I',
    number: 2,
};

const OUTPUT_LINK_ID: Sym = Sym::Ident {
    letter: b'I',
    number: 3,
};

/// A triple without the mark.
pub fn plain_triple(id: Sym, attr: Sym, value: Sym) -> Triple
    ensures { result ≡ meaning.plain_triple id attr value }
{
    Triple {
        id,
        attr,
        value,
        accept: false,
    }
}

/// Adds the elements of all goals, from the top.
pub fn add_goal_elements(out: &mut List<Triple>, goals: &[Goal]) -> Result<(), NoMemory>
    ensures { OnOk result (out.new ≡ out.old ++ meaning.goal_elements goals.now) }
{
    match goals.split_first() {
        Some((top, below)) => {
            add_top(out, top.id)?;
            add_below(out, top.id, below)
        }
        None => Ok(()),
    }
}

fn add_top(out: &mut List<Triple>, id: Sym) -> Result<(), NoMemory>
    ensures { OnOk result (out.new ≡ out.old ++ meaning.top_elements id) }
{
    out.extend_from_slice(&[
        plain_triple(IO_ID, INPUT_LINK, INPUT_LINK_ID),
        plain_triple(IO_ID, OUTPUT_LINK, OUTPUT_LINK_ID),
        plain_triple(id, IO, IO_ID),
        plain_triple(id, SUPERSTATE, NIL),
        plain_triple(id, TYPE, STATE),
    ])?;
    Ok(())
}

/// Adds the elements of goals that stand below one another, the first below this superstate.
fn add_below(out: &mut List<Triple>, superstate: Sym, goals: &[Goal]) -> Result<(), NoMemory>
    ensures { OnOk result (out.new ≡ out.old ++ meaning.elements_below superstate goals.now) }
{
    let mut above = superstate;
    'goals: for goal in goals {
        add_substate(out, above, goal)?;
        above = goal.id;
    }
    Ok(())
}

fn add_substate(out: &mut List<Triple>, superstate: Sym, goal: &Goal) -> Result<(), NoMemory>
    ensures { OnOk result (out.new ≡ out.old ++ meaning.substate superstate goal.now.id goal.now.impasse goal.now.items) }
{
    out.extend_from_slice(&[
        plain_triple(goal.id, TYPE, STATE),
        plain_triple(goal.id, SUPERSTATE, superstate),
        plain_triple(goal.id, QUIESCENCE, T),
        plain_triple(goal.id, IMPASSE, impasse_of(goal.impasse)),
        plain_triple(goal.id, CHOICES, choices_of(goal.impasse)),
        plain_triple(goal.id, ATTRIBUTE, attribute_of(goal.impasse)),
    ])?;
    add_more(out, goal.id, goal.impasse, goal.items.as_slice())
}

fn impasse_of(impasse: Impasse) -> Sym
    ensures { result ≡ meaning.impasse_of impasse }
{
    match impasse {
        Impasse::Top => NONE,
        Impasse::Tie => TIE,
        Impasse::Conflict => CONFLICT,
        Impasse::Constraint => CONSTRAINT_FAILURE,
        Impasse::StateNoChange | Impasse::OperatorNoChange => NO_CHANGE,
    }
}

fn choices_of(impasse: Impasse) -> Sym
    ensures { result ≡ meaning.choices_of impasse }
{
    match impasse {
        Impasse::Tie | Impasse::Conflict => MULTIPLE,
        Impasse::Constraint => CONSTRAINT_FAILURE,
        Impasse::Top | Impasse::StateNoChange | Impasse::OperatorNoChange => NONE,
    }
}

fn attribute_of(impasse: Impasse) -> Sym
    ensures { result ≡ meaning.attribute_of impasse }
{
    match impasse {
        Impasse::StateNoChange => STATE,
        _ => OPERATOR,
    }
}

fn add_more(
    out: &mut List<Triple>,
    id: Sym,
    impasse: Impasse,
    items: &[Item],
) -> Result<(), NoMemory>
    ensures { OnOk result (out.new ≡ out.old ++ meaning.more_elements id impasse items.now) }
{
    add_items(out, id, items)?;
    match impasse {
        Impasse::Tie => add_tie(out, id, items),
        _ => Ok(()),
    }
}

fn add_items(out: &mut List<Triple>, id: Sym, items: &[Item]) -> Result<(), NoMemory>
    ensures { OnOk result (out.new ≡ out.old ++ meaning.item_elements id items.now) }
{
    'items: for item in items {
        out.push(plain_triple(id, ITEM, item.value))?;
    }
    Ok(())
}

/// Adds how many items a tie has, and which of them have no number.
fn add_tie(out: &mut List<Triple>, id: Sym, items: &[Item]) -> Result<(), NoMemory>
    ensures { OnOk result (out.new ≡ out.old ++ meaning.tie_elements id items.now) }
{
    add_count(out, id, ITEM_COUNT, items.len())?;
    add_without_number(out, id, items)?;
    add_count(out, id, NON_NUMERIC_COUNT, count_without_number(items))
}

/// Adds a number of items.
fn add_count(out: &mut List<Triple>, id: Sym, attr: Sym, count: usize) -> Result<(), NoMemory>
    requires { count < 2 ^ 63 }
    ensures { OnOk result (out.new ≡ out.old ++ meaning.plain_triple id attr (Int (pos count)) ∷ []) }
{
    match i64::try_from(count) {
        Ok(number) => {
            out.push(plain_triple(id, attr, Sym::Int(number)))?;
            Ok(())
        }
        Err(_) => unreachable!(),
    }
}

fn add_without_number(out: &mut List<Triple>, id: Sym, items: &[Item]) -> Result<(), NoMemory>
    ensures { OnOk result (out.new ≡ out.old ++ map (λ item. meaning.plain_triple id non_numeric_word item.value) (meaning.without_number items.now)) }
{
    'items: for item in items {
        if !item.numeric {
            out.push(plain_triple(id, NON_NUMERIC, item.value))?;
        }
    }
    Ok(())
}

fn count_without_number(items: &[Item]) -> usize
    ensures { result ≡ length (meaning.without_number items.now) }
{
    items.iter().filter(|item| !item.numeric).count()
}
