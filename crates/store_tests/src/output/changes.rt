ghost use Rattle.std.specs.Prelude.{◌≡◌, false};
ghost use Rattle.defs_soar.specs.Architecture.{name_word, output_identifier};
ghost use Rattle.soar_sym.specs.declared.symbol.Sym.TheVariants.{Int};

use output_link::output_changes;
use soar_sym::architecture::NAME;
use soar_sym::{List, NoMemory, Sym, SymTable, Triple, is_triple};
use std::alloc::Global;
use std::test::Fail;

/// A triple of the output link.
fn says(value: i64) -> Triple
    ensures { result ≡ record { id = output_identifier; attr = name_word; value = Int value; accept = false } }
{
    Triple {
        id: Sym::Ident {
            letter: b'I',
            number: 3,
        },
        attr: NAME,
        value: Sym::Int(value),
        accept: false,
    }
}

fn are(triples: &List<Triple>, values: &[i64]) -> bool {
    if triples.len() != values.len() {
        return false;
    }
    for (triple, value) in triples.as_slice().iter().zip(values) {
        if !is_triple(*triple, says(*value)) {
            return false;
        }
    }
    true
}

fn changes_are_told(alloc: Global) -> Result<bool, NoMemory> {
    let table = SymTable::new(alloc)?;
    let before = List::from_slice(alloc, &[says(3), says(1), says(2)])?;
    let now = List::from_slice(alloc, &[says(5), says(2), says(4)])?;
    let changes = output_changes(alloc, &table, &before, &now)?;
    Ok(are(&changes.gone, &[1, 3]) && are(&changes.new, &[4, 5]))
}

#[test]
fn what_is_gone_and_what_is_new_come_in_order(rt: HostRuntime) -> Result<(), Fail> {
    assert!(rt; changes_are_told(rt.alloc())?);
    Ok(())
}
