// Names of variables join the table, and are looked up there.
ghost use Rattle.std.specs.Prelude.{◌≡◌, ◌-◌, ◌^◌, ◌<◌, length, true, IfOk, OnOk, IfErr};
ghost use Rattle.std.specs.List.{list_all};
ghost use Rattle.chunk_make.specs.Drafts.{forms_seen, joining};
ghost use Rattle.chunk_make.specs.Known.{HasGrown};
ghost use Rattle.defs_soar.specs.Candidate.{words_of_names};
ghost use Rattle.defs_soar.specs.CandidateOf.{words_after};
ghost use Rattle.defs_text.specs.Numbered.{word_in};
ghost use Rattle.soar_sym.specs.Words.{has_text, with_text};

use crate::fault::MakeFault;
use crate::forms::Forms;
use soar_sym::{InternFault, List, NoMemory, Sym, SymTable, Text};
use std::alloc::Global;

/// The names of the general form join the table, or those of the literal one where there is no general one.
pub(crate) fn join_names(table: &mut SymTable, forms: &Forms) -> Result<(), MakeFault>
    ensures words { OnOk result (table.new ≡ words_after table.old (joining (forms_seen forms.now))) }
    ensures spent { IfErr result (λ e. e ≡ MakeFault.WordsSpent → 2 ^ 32 - 1 < length (words_after table.old (joining (forms_seen forms.now)))) }
    ensures few { length table.new < 2 ^ 32 }
    ensures grown { HasGrown table.old table.new }
{
    match forms {
        Forms::Neither => join(table, &[]),
        Forms::Literal(literal) => join(table, literal.names.as_slice()),
        Forms::Both(general, _) => join(table, general.names.as_slice()),
    }
}

fn join(table: &mut SymTable, names: &[Text]) -> Result<(), MakeFault>
    ensures words { OnOk result (table.new ≡ words_after table.old names.now) }
    ensures spent { IfErr result (λ e. e ≡ MakeFault.WordsSpent → 2 ^ 32 - 1 < length (words_after table.old names.now)) }
    ensures few { length table.new < 2 ^ 32 }
    ensures grown { HasGrown table.old table.new }
{
    table.law();
    'names: for name in names {
        join_name(table, name.as_str())?;
    }
    Ok(())
}

#[tactic(auto, using(crate::proofs::JoinLemmas::with_new, crate::proofs::JoinLemmas::grown_with, crate::proofs::JoinLemmas::grown_same))]
fn join_name(table: &mut SymTable, name: &str) -> Result<(), MakeFault>
    ensures words { OnOk result (table.new ≡ with_text table.old name.now) }
    ensures spent { IfErr result (λ e. e ≡ MakeFault.WordsSpent → 2 ^ 32 - 1 < length (with_text table.old name.now)) }
    ensures few { length table.new < 2 ^ 32 }
    ensures grown { HasGrown table.old table.new }
{
    match table.intern(name) {
        Ok(_) => Ok(()),
        Err(InternFault::WordsSpent) => Err(MakeFault::WordsSpent),
        Err(InternFault::NoMemory) => Err(MakeFault::NoMemory),
    }
}

/// The words of names that are in the table.
#[tactic(auto, using(crate::proofs::JoinLemmas::known_at))]
pub(crate) fn words_in(
    alloc: Global,
    table: &mut SymTable,
    names: &[Text],
) -> Result<List<Sym>, NoMemory>
    requires { list_all (has_text table.old) names.now ≡ true }
    ensures words { IfOk result (λ words. words ≡ words_of_names table.old names.now) }
    ensures table { table.new ≡ table.old }
{
    let mut words = List::new(alloc);
    'names: for name in names {
        let word = word_in(table, name.as_str())?;
        words.push(word)?;
    }
    Ok(words)
}

#[tactic(auto, using(crate::proofs::JoinLemmas::with_known, crate::proofs::JoinLemmas::word_is))]
fn word_in(table: &mut SymTable, name: &str) -> Result<Sym, NoMemory>
    requires { has_text table.old name.now ≡ true }
    ensures word { IfOk result (λ word. word ≡ word_in table.old name.now) }
    ensures table { table.new ≡ table.old }
{
    match table.intern(name) {
        Ok(word) => Ok(word),
        Err(_) => Err(NoMemory),
    }
}
