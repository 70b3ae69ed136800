// Candidates before the names of their variables are words.
ghost use Rattle.std.specs.Prelude.{◌≡◌, IfOk};
ghost use Rattle.chunk_make.specs.Drafts.{draft_of, draft_seen};
ghost use Rattle.chunk_make.specs.Findings.{AreFindings};
ghost use Rattle.chunk_make.specs.Known.{IsChainKnown};
ghost use Rattle.defs_soar.specs.History.{chain_seen};
ghost use Rattle.soar_sym.specs.Words.{Texts};

use crate::causes::first_cause;
use crate::findings::{Findings, find};
use crate::forms::{Forms, forms_of};
use chain_identifiers::Identifiers;
use defs_soar::{Cause, Chain};
use soar_sym::{NoMemory, Sym, SymTable};
use std::alloc::Global;

/// The forms that are there, the first cause against the general one, and the first identifier without a variable.
#[derive(Drop)]
pub(crate) struct Draft {
    pub(crate) forms: Forms,
    pub(crate) cause: Option<Cause>,
    pub(crate) missing: Option<Sym>,
}

/// The draft of a candidate. `depth` is that of the chain's last firing.
pub(crate) fn drafted(
    alloc: Global,
    table: &SymTable,
    chain: &Chain,
    depth: u32,
) -> Result<Draft, NoMemory>
    requires { IsChainKnown table.now (chain_seen chain.now) }
    ensures { IfOk result (λ draft. draft_seen draft ≡ draft_of table.now (chain_seen chain.now) depth) }
{
    let told = Identifiers::of(alloc, chain, depth)?;
    let found = find(alloc, table, &told)?;
    let draft = draft_over(alloc, &told, &found)?;
    Ok(draft)
}

fn draft_over(alloc: Global, told: &Identifiers<'_>, found: &Findings) -> Result<Draft, NoMemory>
    ensures { (words : Texts) → AreFindings words (chain_seen told.now.chain.now) told.now.depth found.now
        → IfOk result (λ draft. draft_seen draft ≡ draft_of words (chain_seen told.now.chain.now) told.now.depth) }
{
    let forms = forms_of(alloc, told, found)?;
    let cause = first_cause(alloc, told, &forms, found.missing)?;
    Ok(Draft {
        forms,
        cause,
        missing: found.missing,
    })
}
