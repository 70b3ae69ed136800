// The candidate of an explanation whose words are in the table.
ghost use Rattle.std.specs.Prelude.{◌≡◌, true, map};
ghost use Rattle.std.specs.List.{list_all};
ghost use Rattle.soar_rule.specs.Productions.{production_seen};
ghost use Rattle.soar_fire.specs.Growth.{OnlyGrows};
ghost use Rattle.defs_soar.specs.History.{chain_seen, step_seen};
ghost use Rattle.wave_learning.specs.Lawful.{ArePartsKnown, is_known, is_named, is_step_named};
ghost use Rattle.wave_learning.specs.Seen.{MakesCandidate};

use chunk_make::{MakeFault, candidate};
use defs_soar::{Candidate, Chain, Step, Which};
use soar_rule::Production;
use soar_settle::Stop;
use soar_sym::{Sym, SymTable};
use std::alloc::Global;

/// The candidate for a learned rule. The names of its variables join the table.
#[tactic(auto, using(soar_fire::proofs::GrowthLemmas::not_grown))]
pub(crate) fn candidate_of(
    alloc: Global,
    table: &mut SymTable,
    chain: &Chain,
    depth: u32,
) -> Result<Candidate, Stop>
    requires { ArePartsKnown table.old (chain_seen chain.now) }
    ensures answer { MakesCandidate table.old (chain_seen chain.now) depth table.new result }
    ensures words { OnlyGrows table.old table.new }
{
    if !are_steps_named(table, chain.steps.as_slice()) {
        return Err(Stop::NoMemory);
    }
    made(alloc, table, chain, depth)
}

#[tactic(auto, using(crate::proofs::NamedLemmas::only_grows))]
fn made(alloc: Global, table: &mut SymTable, chain: &Chain, depth: u32) -> Result<Candidate, Stop>
    requires parts { ArePartsKnown table.old (chain_seen chain.now) }
    requires names { list_all (is_step_named table.old) (chain_seen chain.now).steps ≡ true }
    ensures answer { MakesCandidate table.old (chain_seen chain.now) depth table.new result }
    ensures words { OnlyGrows table.old table.new }
{
    table.law();
    match candidate(alloc, table, chain, depth) {
        Ok(candidate) => Ok(candidate),
        Err(MakeFault::WordsSpent) => Err(Stop::Limit(Which::Words)),
        Err(MakeFault::NoMemory) => Err(Stop::NoMemory),
    }
}

/// Whether the names of all rules that fired, and of their variables, are in the table.
fn are_steps_named(table: &SymTable, steps: &[Step]) -> bool
    ensures { result ≡ list_all (is_step_named table.now) (map step_seen steps.now) }
{
    'steps: for step in steps {
        if !is_step_named(table, step) {
            return false;
        }
    }
    true
}

fn is_step_named(table: &SymTable, step: &Step) -> bool
    ensures { result ≡ is_step_named table.now (step_seen step.now) }
{
    match step {
        Step::Fire(firing) => is_named(table, &firing.rule.production),
        Step::Architecture(_) => true,
        Step::Item(_, _) => true,
        Step::Select(_, _) => true,
    }
}

fn is_named(table: &SymTable, production: &Production) -> bool
    ensures { result ≡ is_named table.now (production_seen production.now) }
{
    is_known(table, production.name) && are_known(table, production.vars.as_slice())
}

fn are_known(table: &SymTable, symbols: &[Sym]) -> bool
    ensures { result ≡ list_all (is_known table.now) symbols.now }
{
    'symbols: for symbol in symbols {
        if !is_known(table, *symbol) {
            return false;
        }
    }
    true
}

fn is_known(table: &SymTable, symbol: Sym) -> bool
    ensures { result ≡ is_known table.now symbol }
{
    match symbol {
        Sym::Word(word) => word < table.word_count(),
        Sym::Ident { letter, .. } => !(letter < 65) && !(90 < letter),
        Sym::Int(_) => true,
    }
}
