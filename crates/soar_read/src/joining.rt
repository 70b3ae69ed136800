// The names of new variables join the table.
ghost use Rattle.std.specs.Prelude.{◌≡◌, true};
ghost use Rattle.std.specs.List.{list_all};
ghost use Rattle.soar_read.specs.Joining.{is_own_name, AllJoin, Joins, JoinsText};

use crate::fault::ReadFault;
use read_parts::{Name, new_name};
use soar_sym::{InternFault, List, Sym, SymTable};
use std::alloc::Global;

/// The word of a text, which is new to the table or not.
fn join_text(table: &mut SymTable, text: &str) -> Result<Sym, ReadFault>
    ensures { JoinsText table.old table.new text.now result }
{
    match table.intern(text) {
        Ok(symbol) => Ok(symbol),
        Err(InternFault::WordsSpent) => Err(ReadFault::WordsSpent),
        Err(InternFault::NoMemory) => Err(ReadFault::NoMemory),
    }
}

/// The word of a name.
fn join(alloc: Global, table: &mut SymTable, name: Name) -> Result<Sym, ReadFault>
    ensures { Joins table.old table.new name result }
{
    match name {
        Name::Given(word) => Ok(Sym::Word(word)),
        Name::New(number) => {
            let text = new_name(alloc, number)?;
            join_text(table, text.as_str())
        }
    }
}

/// The words of names, in order. Those of new names join the table.
pub fn join_all(alloc: Global, table: &mut SymTable, names: &[Name]) -> Result<List<Sym>, ReadFault>
    requires { list_all (is_own_name table.old) names.now ≡ true }
    ensures { AllJoin table.old table.new names.now result }
{
    let mut symbols = List::new(alloc);
    'names: for name in names {
        let symbol = join(alloc, table, *name)?;
        symbols.push(symbol)?;
    }
    Ok(symbols)
}
