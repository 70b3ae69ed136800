// Inputs and rows that leave identifier by identifier.
ghost use Rattle.std.specs.Prelude.{◌≡◌, ◌++◌, filter, not, OnOk, IfOk};
ghost use Rattle.soar_sym.specs.Equality.{symbol_eq};
ghost use Rattle.settle_changes.specs.Leaving.{inputs_gone, inputs_without, rows_without};

use input_memory::Inputs;
use soar_prefs::Prefs;
use soar_sym::{List, NoMemory, Sym, Triple};
use std::alloc::Global;

/// Takes away the inputs of these identifiers, and gives them.
pub fn drop_inputs(
    alloc: Global,
    ids: &[Sym],
    inputs: &mut Inputs,
) -> Result<List<Triple>, NoMemory>
    ensures gone { IfOk result (λ gone. gone ≡ inputs_gone inputs.old ids.now) }
    ensures inputs { OnOk result (inputs.new ≡ inputs_without inputs.old ids.now) }
{
    let mut gone = List::new(alloc);
    'ids: for id in ids {
        drop_inputs_of(alloc, *id, inputs, &mut gone)?;
    }
    Ok(gone)
}

/// Takes away the inputs of an identifier, and adds them to what is gone.
fn drop_inputs_of(
    alloc: Global,
    id: Sym,
    inputs: &mut Inputs,
    gone: &mut List<Triple>,
) -> Result<(), NoMemory>
    ensures gone { OnOk result (gone.new ≡ gone.old ++ filter (λ t. symbol_eq t.id id) inputs.old) }
    ensures inputs { OnOk result (inputs.new ≡ filter (λ t. not (symbol_eq t.id id)) inputs.old) }
{
    let of_id = inputs.of_id(alloc, id)?;
    gone.extend_from_slice(of_id.as_slice())?;
    inputs.drop_id(id);
    Ok(())
}

/// Takes away the rows of these identifiers.
pub fn drop_rows(ids: &[Sym], prefs: &mut Prefs)
    ensures { prefs.new ≡ record prefs.old { rows = rows_without prefs.old.rows ids.now } }
{
    'ids: for id in ids {
        prefs.drop_id(*id);
    }
}
