// A candidate is drafted over the table as it is. Then the names of its variables join the table, and become words.
ghost use Rattle.std.specs.Prelude.{◌≡◌, ◌-◌, ◌^◌, ◌<◌, length, true, IfOk, OnOk, IfErr};
ghost use Rattle.std.specs.List.{list_all};
ghost use Rattle.std.specs.Option.{option_map};
ghost use Rattle.chunk_forms.specs.Forms.{form_seen};
ghost use Rattle.chunk_make.specs.Drafts.{candidate_from, draft_seen, forms_seen, general_named, literal_named, AreNamesKnown};
ghost use Rattle.chunk_make.specs.Known.{HasGrown, IsChainKnown};
ghost use Rattle.defs_soar.specs.Candidate.{named_form};
ghost use Rattle.defs_soar.specs.CandidateOf.{candidate_of, candidate_seen, words_of_candidate};
ghost use Rattle.defs_soar.specs.History.{chain_seen};
ghost use Rattle.soar_rule.specs.Productions.{production_seen};
ghost use Rattle.soar_rule.specs.declared.production.Kind.TheVariants.{Chunk, Justification};
ghost use Rattle.soar_sym.specs.Words.{has_text};

use crate::drafts::{Draft, drafted};
use crate::fault::MakeFault;
use crate::forms::Forms;
use crate::words::{join_names, words_in};
use chunk_forms::Form;
use defs_soar::{Candidate, Chain};
use soar_rule::{Kind, Production};
use soar_sym::{NoMemory, SymTable};
use std::alloc::Global;

/// The candidate for a learned rule: its two forms, as far as they are there, and the first cause against the general
/// one, whatever the settings. The names of its variables join the table. `depth` is that of the chain's last firing
/// (Soar manual, chapter 4, chunking).
pub fn candidate(
    alloc: Global,
    table: &mut SymTable,
    chain: &Chain,
    depth: u32,
) -> Result<Candidate, MakeFault>
    requires { IsChainKnown table.old (chain_seen chain.now) }
    ensures candidate { IfOk result (λ c. candidate_seen c ≡ candidate_of table.old (chain_seen chain.now) depth) }
    ensures words { OnOk result (table.new ≡ words_of_candidate table.old (chain_seen chain.now) depth) }
    ensures spent { IfErr result (λ e. e ≡ MakeFault.WordsSpent → 2 ^ 32 - 1 < length (words_of_candidate table.old (chain_seen chain.now) depth)) }
    ensures fits { OnOk result (length (words_of_candidate table.old (chain_seen chain.now) depth) < 2 ^ 32) }
    ensures grown { HasGrown table.old table.new }
{
    let draft = drafted(alloc, table, chain, depth)?;
    join_names(table, &draft.forms)?;
    let candidate = finished(alloc, table, draft)?;
    Ok(candidate)
}

/// The candidate of a draft whose names are in the table.
fn finished(alloc: Global, table: &mut SymTable, draft: Draft) -> Result<Candidate, NoMemory>
    requires { AreNamesKnown table.old (forms_seen draft.forms) }
    ensures candidate { IfOk result (λ c. candidate_seen c ≡ candidate_from table.old (draft_seen draft)) }
    ensures table { table.new ≡ table.old }
{
    let Draft {
        forms,
        cause,
        missing,
    } = draft;
    let (general, literal) = productions(alloc, table, forms)?;
    Ok(Candidate {
        general,
        literal,
        cause,
        ungrounded: missing,
    })
}

/// The general form and the literal one, as far as they are there.
fn productions(
    alloc: Global,
    table: &mut SymTable,
    forms: Forms,
) -> Result<(Option<Production>, Option<Production>), NoMemory>
    requires { AreNamesKnown table.old (forms_seen forms) }
    ensures general { IfOk result (λ p. option_map production_seen p.0 ≡ general_named table.old (forms_seen forms)) }
    ensures literal { IfOk result (λ p. option_map production_seen p.1 ≡ literal_named table.old (forms_seen forms)) }
    ensures table { table.new ≡ table.old }
{
    match forms {
        Forms::Neither => Ok((None, None)),
        Forms::Literal(literal) => {
            let literal = production(alloc, table, literal, Kind::Justification)?;
            Ok((None, Some(literal)))
        }
        Forms::Both(general, literal) => both_productions(alloc, table, general, literal),
    }
}

fn both_productions(
    alloc: Global,
    table: &mut SymTable,
    general: Form,
    literal: Form,
) -> Result<(Option<Production>, Option<Production>), NoMemory>
    requires general { list_all (has_text table.old) general.names ≡ true }
    requires literal { list_all (has_text table.old) literal.names ≡ true }
    ensures general { IfOk result (λ p. option_map production_seen p.0 ≡ Some (named_form table.old (form_seen Chunk general))) }
    ensures literal { IfOk result (λ p. option_map production_seen p.1 ≡ Some (named_form table.old (form_seen Justification literal))) }
    ensures table { table.new ≡ table.old }
{
    let general = production(alloc, table, general, Kind::Chunk)?;
    let literal = production(alloc, table, literal, Kind::Justification)?;
    Ok((Some(general), Some(literal)))
}

/// A form with the words of its variables.
fn production(
    alloc: Global,
    table: &mut SymTable,
    form: Form,
    kind: Kind,
) -> Result<Production, NoMemory>
    requires { list_all (has_text table.old) form.names ≡ true }
    ensures production { IfOk result (λ p. production_seen p ≡ named_form table.old (form_seen kind form)) }
    ensures table { table.new ≡ table.old }
{
    let vars = words_in(alloc, table, form.names.as_slice())?;
    Ok(form.into_production(kind, vars))
}
