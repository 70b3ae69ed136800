// The identifiers of an explanation.
ghost use Rattle.std.specs.Prelude.{◌≡◌, IfOk};
ghost use Rattle.defs_soar.specs.CarriedTests as tests;
ghost use Rattle.defs_soar.specs.ChainIdentifiers as meaning;
ghost use Rattle.defs_soar.specs.History.{chain_seen};

use crate::grounds::is_in_ground;
use crate::steps::{is_goal_in, is_made_in, is_superstate_in};
use defs_soar::Chain;
use soar_sym::{NoMemory, Sym, is_identifier};
use std::alloc::Global;

/// What a chain tells of its identifiers, found once. `depth` is that of its last firing (Soar manual, chapter 4,
/// chunking).
#[derive(Drop)]
pub struct Identifiers<'a> {
    pub chain: &'a Chain,
    pub depth: u32,
}

impl<'a> Identifiers<'a> {
    /// Goes through the chain.
    pub fn of(alloc: Global, chain: &'a Chain, depth: u32) -> Result<Identifiers<'a>, NoMemory>
        ensures chain { IfOk result (λ told. told.chain.now ≡ chain.now) }
        ensures depth { IfOk result (λ told. told.depth ≡ depth) }
    {
        Ok(Identifiers { chain, depth })
    }

    /// Whether it is an identifier of a higher level than the depth of the chain.
    pub fn is_higher(&self, symbol: Sym) -> bool
        ensures { result ≡ meaning.is_higher (chain_seen self.now.chain.now) self.now.depth symbol }
    {
        let steps = self.chain.steps.as_slice();
        is_identifier(symbol)
            && (is_in_ground(self.chain.grounds.as_slice(), symbol)
                || is_superstate_in(steps, symbol))
            && !is_goal_in(steps, self.depth, symbol)
    }

    /// Whether some firing of the chain made it new, and no ground holds it.
    pub fn is_made(&self, symbol: Sym) -> bool
        ensures { result ≡ meaning.is_made_by (chain_seen self.now.chain.now) symbol }
    {
        is_made_in(self.chain.steps.as_slice(), symbol)
            && !is_in_ground(self.chain.grounds.as_slice(), symbol)
    }

    /// Whether it is made by the chain, or a goal of its depth that no ground holds.
    pub fn is_inner(&self, symbol: Sym) -> bool
        ensures { result ≡ tests.is_inner (chain_seen self.now.chain.now) self.now.depth symbol }
    {
        self.is_made(symbol)
            || is_goal_in(self.chain.steps.as_slice(), self.depth, symbol)
                && !is_in_ground(self.chain.grounds.as_slice(), symbol)
    }
}
