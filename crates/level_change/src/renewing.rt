// Links and levels are renewed, or left as they were.
ghost use Rattle.std.specs.Prelude.{◌≡◌, [], OnOk, OnErr, IfOk, List as ListOf};
ghost use Rattle.soar_sym.specs.declared.symbol.Triple.{Triple as TripleOf};
ghost use Rattle.level_change.specs.Counts.{IsChanged};
ghost use Rattle.level_change.specs.Holds.{Holds, told_in};
ghost use Rattle.level_change.specs.Passing.{KeptBut};

use crate::anew::{forget_lost, spread_anew};
use crate::counting::recount;
use crate::levels::Told;
use crate::store::Store;
use soar_sym::{List, NoMemory, Sym, Triple};
use std::alloc::Global;
use std::collections::{BTreeMap, HashMap};

/// Renews links and levels, and answers what may have another level. Where memory is refused nothing came later.
pub fn renew_or_leave(
    alloc: Global,
    told: &mut Told,
    out: &mut Store,
    into: &mut Store,
    old: &[Sym],
    gone: &[Triple],
    come: &[Triple],
    new: &[Sym],
) -> Result<List<Sym>, NoMemory>
    ensures holds { OnOk result ((held after : ListOf TripleOf) → IsChanged held gone.now come.now after → Holds told.old out.old into.old held old.now → Holds told.new out.new into.new after new.now) }
    ensures moved { IfOk result (λ moved. KeptBut (told_in told.old) (told_in told.new) moved) }
    ensures bases { OnErr result ((told.new.base ≡ told.old.base) × (out.new.base ≡ out.old.base) × (into.new.base ≡ into.old.base)) }
    ensures lates { OnErr result ((told.new.late.entries ≡ []) × (out.new.late.entries ≡ []) × (into.new.late.entries ≡ [])) }
{
    match renew(alloc, told, out, into, old, gone, come, new) {
        Ok(moved) => Ok(moved),
        Err(_) => {
            told.late = HashMap::new(alloc);
            out.late = BTreeMap::new(alloc);
            into.late = BTreeMap::new(alloc);
            Err(NoMemory)
        }
    }
}

/// Renews links and levels.
fn renew(
    alloc: Global,
    told: &mut Told,
    out: &mut Store,
    into: &mut Store,
    old: &[Sym],
    gone: &[Triple],
    come: &[Triple],
    new: &[Sym],
) -> Result<List<Sym>, NoMemory>
    ensures holds { OnOk result ((held after : ListOf TripleOf) → IsChanged held gone.now come.now after → Holds told.old out.old into.old held old.now → Holds told.new out.new into.new after new.now) }
    ensures moved { IfOk result (λ moved. KeptBut (told_in told.old) (told_in told.new) moved) }
    ensures bases { (told.new.base ≡ told.old.base) × (out.new.base ≡ out.old.base) × (into.new.base ≡ into.old.base) }
{
    recount(&out.base, &mut out.late, &mut into.late, gone, come)?;
    let had = forget_lost(alloc, &told.base, &mut told.late, out, old, gone, new)?;
    let had = had.as_slice();
    spread_anew(alloc, &told.base, &mut told.late, out, into, new, come, had)
}
