// The rows of preference memory after the firings of a wave.
ghost use Rattle.std.specs.Prelude.{◌≡◌, ◌≤◌, [], ◌∷◌, ◌++◌, length, IfOk, OnOk};
ghost use Rattle.defs_soar.specs.Preferences.{is_reject_now, without_firings};
ghost use Rattle.defs_soar.specs.Waves.{rows_added};
ghost use Rattle.soar_settle.specs.Renewal.{not_rejected, triple_in, AddsAll, Renews};

use crate::stop::Stop;
use defs_soar::{PrefKind, Preference, Which};
use soar_prefs::{PrefFault, Prefs};
use soar_sym::{List, Triple};
use std::alloc::Global;

/// Takes away the rows of the firings that left, adds those that were made, and takes away what these reject.
/// It gives the rows that were added, in turn.
pub fn renew(
    alloc: Global,
    prefs: &mut Prefs,
    gone: &[u64],
    made: &[Preference],
) -> Result<List<Preference>, Stop>
    requires { length prefs.old.rows ≤ prefs.old.limit }
    ensures renewed { Renews prefs.old prefs.new gone.now made.now result }
    ensures added { IfOk result (λ added. added ≡ rows_added (without_firings prefs.old.rows gone.now) made.now) }
{
    let mut added = List::new(alloc);
    retract_all(prefs, gone);
    add_all(prefs, made, &mut added)?;
    reject_all(prefs, made);
    Ok(added)
}

/// Takes away the instance-supported rows of firings.
fn retract_all(prefs: &mut Prefs, gone: &[u64])
    ensures rows { prefs.new ≡ record prefs.old { rows = without_firings prefs.old.rows gone.now } }
    ensures fewer { length prefs.new.rows ≤ length prefs.old.rows }
{
    'gone: for number in gone {
        prefs.retract(*number);
    }
}

/// Adds rows in their order, as far as there is room, and notes those that were not kept already.
fn add_all(prefs: &mut Prefs, made: &[Preference], added: &mut List<Preference>) -> Result<(), Stop>
    requires { length prefs.old.rows ≤ prefs.old.limit }
    ensures answer { AddsAll prefs.old prefs.new made.now result }
    ensures noted { OnOk result (added.new ≡ added.old ++ rows_added prefs.old.rows made.now) }
{
    'made: for row in made {
        add_noting(prefs, *row, added)?;
    }
    Ok(())
}

/// Adds a row, and notes it where there is one more then.
fn add_noting(prefs: &mut Prefs, row: Preference, added: &mut List<Preference>) -> Result<(), Stop>
    requires { length prefs.old.rows ≤ prefs.old.limit }
    ensures answer { AddsAll prefs.old prefs.new (row ∷ []) result }
    ensures noted { OnOk result (added.new ≡ added.old ++ rows_added prefs.old.rows (row ∷ [])) }
{
    let before = prefs.len();
    add(prefs, row)?;
    if prefs.len() > before {
        added.push(row)?;
    }
    Ok(())
}

fn add(prefs: &mut Prefs, row: Preference) -> Result<(), Stop>
    requires { length prefs.old.rows ≤ prefs.old.limit }
    ensures { AddsAll prefs.old prefs.new (row ∷ []) result }
{
    match prefs.add(row) {
        Ok(()) => Ok(()),
        Err(PrefFault::Full) => Err(Stop::Limit(Which::Preferences)),
        Err(PrefFault::NoMemory) => Err(Stop::NoMemory),
    }
}

/// Takes away the rows of each triple that a row with operator support rejects.
fn reject_all(prefs: &mut Prefs, made: &[Preference])
    ensures { prefs.new ≡ record prefs.old { rows = not_rejected made.now prefs.old.rows } }
{
    'made: for row in made {
        if is_reject_now(row) {
            prefs.reject_now(triple_of(row));
        }
    }
}

fn is_reject_now(row: &Preference) -> bool
    ensures { result ≡ is_reject_now row.now }
{
    row.operator_support && row.wish.kind.is(PrefKind::Reject)
}

fn triple_of(row: &Preference) -> Triple
    ensures { result ≡ triple_in row.now }
{
    Triple {
        id: row.wish.id,
        attr: row.wish.attr,
        value: row.wish.value,
        accept: false,
    }
}
