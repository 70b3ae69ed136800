ghost use Rattle.std.specs.Prelude.{◌≡◌, ◌≤◌, length, IfOk};
ghost use Rattle.defs_soar.specs.History.{firing_seen};
ghost use Rattle.firing_records.specs.Recorded.{standing};
ghost use Rattle.soar_record.specs.Recorded.{recorded as kept_in};
ghost use Rattle.explained_firings.specs.Explaining.{CanBeExplained, IsExplanation, TellsExplanation, teaches};

use crate::kept::chain_of;
use crate::levels::KeptLevels;
use crate::results::has_result;
use chunk_results::{results, taken_over};
use defs_soar::{Chain, Firing};
use firing_records::Before;
use soar_record::Record;
use soar_sym::{List, NoMemory, SymTable};

/// The explanation of a firing: its number and the depth of its match goal, for each of its preferences whether it goes
/// over to what is learned, and the chain, with the results.
#[derive(Drop)]
pub struct Explained {
    pub number: u64,
    pub depth: u32,
    pub goes_over: List<bool>,
    pub chain: Chain,
}

/// The explanation of a firing that made something for a higher goal (Soar manual, chapter 4, chunking), and none of
/// another. `past` has the firings before its wave.
pub fn explain(
    table: &SymTable,
    before: &Before<'_>,
    past: &Record,
    firing: &Firing,
) -> Result<Option<Explained>, NoMemory>
    requires few { length before.now.goals.now ≤ 100 }
    requires sound { CanBeExplained table.now (standing before.now) (kept_in past.now) (firing_seen firing.now) }
    ensures { IfOk result (λ found. TellsExplanation table.now (standing before.now) (kept_in past.now) (firing_seen firing.now) found) }
{
    if !teaches(before, firing) {
        return Ok(None);
    }
    let explanation = explanation(table, before, past, firing)?;
    Ok(Some(explanation))
}

/// Whether it is a firing below the top goal that made something for a higher one.
fn teaches(before: &Before<'_>, firing: &Firing) -> bool
    ensures { result ≡ teaches (standing before.now) (firing_seen firing.now) }
{
    1 < firing.depth && has_result(before, firing)
}

fn explanation(
    table: &SymTable,
    before: &Before<'_>,
    past: &Record,
    firing: &Firing,
) -> Result<Explained, NoMemory>
    requires few { length before.now.goals.now ≤ 100 }
    requires sound { CanBeExplained table.now (standing before.now) (kept_in past.now) (firing_seen firing.now) }
    ensures { IfOk result (λ e. IsExplanation table.now (standing before.now) (kept_in past.now) (firing_seen firing.now) e) }
{
    let alloc = before.alloc;
    let rows = before.prefs.all(alloc)?;
    let levels = KeptLevels {
        kept: before.levels,
    };
    let found = results(alloc, firing, &rows, &levels, before.goals, table)?;
    let goes_over = taken_over(alloc, firing, &rows, &levels, before.goals)?;
    let chain = chain_of(alloc, past, firing, found.as_slice())?;
    Ok(Explained {
        number: firing.number,
        depth: firing.depth,
        goes_over,
        chain,
    })
}
