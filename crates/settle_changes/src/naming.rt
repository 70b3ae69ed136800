// What is named of the goals' changes.
ghost use Rattle.std.specs.Prelude.{◌≡◌, ◌++◌, false, map, IfOk, OnOk};
ghost use Rattle.soar_sym.specs.declared.symbol.Triple.{Triple as TripleOf};
ghost use Rattle.soar_prefs.specs.Memory.{CoversRows, has_plain};
ghost use Rattle.settle_changes.specs.Naming.{CoversGoals, named_of_goals, plain_of, slot_names};

use crate::same::{is_same_symbols, is_same_triples};
use kept_triples::{Kept, Own};
use soar_prefs::{Preference, Prefs};
use soar_sym::architecture::OPERATOR;
use soar_sym::{List, NoMemory, Sym, Triple};
use std::alloc::Global;

/// Names all that changed: of rows, of inputs, and of goals. From now on changes of rows count anew.
pub fn changes(
    alloc: Global,
    own: &Own,
    kept: &Kept,
    prefs: &mut Prefs,
    changed: &[Triple],
) -> Result<List<Triple>, NoMemory>
    ensures rows { IfOk result (λ names. CoversRows names prefs.old.settled prefs.old.rows) }
    ensures inputs { IfOk result (λ names. (t : TripleOf) → has_plain names t ≡ false → has_plain changed.now t ≡ false) }
    ensures goals { IfOk result (λ names. CoversGoals kept.now.own own.now.triples kept.now.ids own.now.ids prefs.old.rows names) }
    ensures prefs { OnOk result (prefs.new ≡ record prefs.old { settled = prefs.old.rows }) }
{
    let mut names = prefs.take_changes(alloc)?;
    names.extend_from_slice(changed)?;
    let of_goals = changes_of_goals(alloc, own, kept, prefs)?;
    names.extend_from_slice(of_goals.as_slice())?;
    Ok(names)
}

/// Names what changed of goals: nothing where they are as before, and else all that they tell.
fn changes_of_goals(
    alloc: Global,
    own: &Own,
    kept: &Kept,
    prefs: &Prefs,
) -> Result<List<Triple>, NoMemory>
    ensures { IfOk result (λ names. CoversGoals kept.now.own own.now.triples kept.now.ids own.now.ids prefs.now.rows names) }
{
    if is_same_triples(kept.own(), own.triples()) && is_same_symbols(kept.ids(), own.ids()) {
        return Ok(List::new(alloc));
    }
    let names = all_of_goals(alloc, own, kept, prefs)?;
    Ok(names)
}

/// Names all own triples before and now, and what stands in the operator slots of all goals before and now.
fn all_of_goals(
    alloc: Global,
    own: &Own,
    kept: &Kept,
    prefs: &Prefs,
) -> Result<List<Triple>, NoMemory>
    ensures { IfOk result (λ names. names ≡ named_of_goals kept.now.own own.now.triples kept.now.ids own.now.ids prefs.now.rows) }
{
    let mut names = List::from_slice(alloc, kept.own())?;
    names.extend_from_slice(own.triples())?;
    add_slots(alloc, prefs, kept.ids(), &mut names)?;
    add_slots(alloc, prefs, own.ids(), &mut names)?;
    Ok(names)
}

/// Adds the triples of the rows of these identifiers' operator slots, without marks.
fn add_slots(
    alloc: Global,
    prefs: &Prefs,
    ids: &[Sym],
    names: &mut List<Triple>,
) -> Result<(), NoMemory>
    ensures { OnOk result (names.new ≡ names.old ++ slot_names prefs.now.rows ids.now) }
{
    'ids: for id in ids {
        let rows = prefs.slot(alloc, *id, OPERATOR)?;
        add_rows(rows.as_slice(), names)?;
    }
    Ok(())
}

/// Adds the triples of rows, without marks.
fn add_rows(rows: &[Preference], names: &mut List<Triple>) -> Result<(), NoMemory>
    ensures { OnOk result (names.new ≡ names.old ++ map plain_of rows.now) }
{
    'rows: for row in rows {
        names.push(plain_of(row))?;
    }
    Ok(())
}

fn plain_of(row: &Preference) -> Triple
    ensures { result ≡ plain_of row.now }
{
    Triple {
        id: row.wish.id,
        attr: row.wish.attr,
        value: row.wish.value,
        accept: false,
    }
}
