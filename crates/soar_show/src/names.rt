// Constants and variables as text.
ghost use Rattle.std.specs.Prelude.{◌≡◌, ◌++◌, OnOk};
ghost use Rattle.soar_rule.specs.Symbols.{constants_of_atom};
ghost use Rattle.defs_read.specs.PrintingConditions.{atom_text, bare_text, name_at};
ghost use Rattle.soar_show.specs.Known.{Knows};

use crate::symbol::{push_bare, push_symbol};
use soar_rule::Atom;
use soar_sym::{Sym, SymTable, Text};
use std::alloc::AllocError;
use std::marker::Model;

/// The table of words, and the names of a production's variables, which it knows.
#[derive(Drop)]
pub struct Names<'a> {
    pub table: &'a SymTable,
    pub vars: &'a [Sym],
}

impl<'a> Model for Names<'a> {
    ghost use Rattle.defs_read.specs.PrintingConditions.{Naming};
    ghost use Rattle.soar_show.specs.Known.{Knows};

    ghost Value = { Naming };

    ghost view = { λ n. record { words = n.table.now; vars = n.vars.now } };

    ghost invariant = { λ n. Knows n.table.now n.vars.now };
}

/// Appends a constant, or a variable in its brackets.
pub fn push_atom(out: &mut Text, names: &Names<'_>, atom: Atom) -> Result<(), AllocError>
    requires { Knows names.now.words (constants_of_atom atom) }
    ensures { OnOk result (out.new ≡ out.old ++ atom_text names.now atom) }
{
    match atom {
        Atom::Const(symbol) => push_symbol(out, names.table, symbol),
        Atom::Var(variable) => {
            out.push('<')?;
            push_name(out, names, variable)?;
            out.push('>')
        }
    }
}

/// Appends the name of a variable, a word without bars.
#[tactic(auto, using(crate::proofs::KnownLemmas::name_has_text))]
fn push_name(out: &mut Text, names: &Names<'_>, variable: u32) -> Result<(), AllocError>
    ensures { OnOk result (out.new ≡ out.old ++ bare_text names.now.words (name_at names.now.vars variable)) }
{
    push_bare(out, names.table, name_at(names.vars, variable))
}

fn name_at(vars: &[Sym], variable: u32) -> Sym
    ensures { result ≡ name_at vars.now variable }
{
    match vars.get(variable as usize) {
        Some(name) => *name,
        None => Sym::Word(0),
    }
}
