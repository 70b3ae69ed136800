ghost use Rattle.std.specs.Prelude.{◌≡◌, ◌<◌, ◌-◌, ◌^◌, ℕ, Some, flat_map, map, IfOk};
ghost use Rattle.std.specs.List.{list_any};
ghost use Rattle.chunk_learn.specs.Candidates.{IsCandidate, IsOfDepth, depth_of_last};
ghost use Rattle.chunk_learn.specs.Told.{learned_from, outcome_told, unless_blocked_told, unless_groundless_told, unless_justified_told, cause_told};
ghost use Rattle.defs_match.specs.Rules.{rule_seen};
ghost use Rattle.defs_soar.specs.CandidateOf.{candidate_seen, as_blocked, learned_by, learned_seen};
ghost use Rattle.defs_soar.specs.ChainIdentifiers.{firing_in};
ghost use Rattle.defs_soar.specs.History.{chain_seen, step_seen};
ghost use Rattle.defs_soar.specs.Negations.{negations_taken_over};
ghost use Rattle.defs_soar.specs.Outcome.{outcome_of};
ghost use Rattle.defs_soar.specs.Stale.{blocked_from};
ghost use Rattle.soar_sym.specs.Words.{Texts};

use crate::causes::cause_against;
use crate::forms::{justified, unless_reused};
use crate::stale::{blocked, tag_lost};
use chain_identifiers::Identifiers;
use chunk_negations::taken_over;
use defs_soar::{Candidate, Cause, Chain, Learned, Learning, Step};
use rule_shelf::Rules;
use soar_sym::NoMemory;
use soar_wm::{Element, Memory};
use std::alloc::Global;

/// What learning from an explanation comes to: the first case that applies. `c` is what `candidate` gives for the chain,
/// `rules` holds the rules learned earlier in the wave, `w` is working memory before it (Soar manual, chapter 4,
/// chunking; the order of cases is this engine's).
pub fn outcome(
    alloc: Global,
    c: &Candidate,
    chain: &Chain,
    rules: &Rules,
    w: &Memory,
    s: &Learning,
) -> Result<Learned, NoMemory>
    ensures { (words : Texts) (depth : ℕ) → IsOfDepth (chain_seen chain.now) depth → IsCandidate words (chain_seen chain.now) depth c.now
        → IfOk result (λ l. learned_seen l ≡ learned_by words (chain_seen chain.now) depth (outcome_of words (chain_seen chain.now) depth (map rule_seen rules.now) w.now.elements s.now)) }
{
    let depth = depth_of(chain.steps.as_slice());
    let told = Identifiers::of(alloc, chain, depth)?;
    let found = learned(alloc, c, &told, rules, w, s)?;
    Ok(found)
}

/// The depth of the last firing, or 0 without one.
fn depth_of(steps: &[Step]) -> u32
    ensures { result ≡ depth_of_last 0 (flat_map firing_in (map step_seen steps.now)) }
{
    let mut depth = 0;
    'steps: for step in steps {
        if let Step::Fire(firing) = step {
            depth = firing.depth;
        }
    }
    depth
}

/// Nothing, where a ground is gone.
fn learned(
    alloc: Global,
    c: &Candidate,
    told: &Identifiers<'_>,
    rules: &Rules,
    w: &Memory,
    s: &Learning,
) -> Result<Learned, NoMemory>
    ensures { IfOk result (λ l. learned_from (candidate_seen c.now) (outcome_told (candidate_seen c.now) (chain_seen told.now.chain.now) told.now.depth (map rule_seen rules.now) w.now.elements s.now) ≡ Some (learned_seen l)) }
{
    match tag_lost(told.chain.grounds.as_slice(), w) {
        Some(tag) => Ok(Learned::Lost(tag)),
        None => unless_blocked(alloc, c, told, rules, w, s),
    }
}

/// Nothing, where a negation is blocked.
fn unless_blocked(
    alloc: Global,
    c: &Candidate,
    told: &Identifiers<'_>,
    rules: &Rules,
    w: &Memory,
    s: &Learning,
) -> Result<Learned, NoMemory>
    ensures { IfOk result (λ l. learned_from (candidate_seen c.now) (unless_blocked_told (candidate_seen c.now) (chain_seen told.now.chain.now) told.now.depth (map rule_seen rules.now) s.now (blocked_from 1 w.now.elements (negations_taken_over (chain_seen told.now.chain.now) told.now.depth))) ≡ Some (learned_seen l)) }
{
    let negations = taken_over(alloc, told)?;
    match blocked(alloc, negations.as_slice(), w)? {
        Some((place, tag)) => blocked_at(place, tag),
        None => unless_groundless(alloc, c, told, rules, s),
    }
}

/// The place is told where it is below 2^32 - 1.
fn blocked_at(place: u32, tag: u32) -> Result<Learned, NoMemory>
    ensures place { IfOk result (λ l. learned_seen l ≡ as_blocked place tag) }
    ensures below { IfOk result (λ l. place < 2 ^ 32 - 1) }
{
    if place == u32::MAX {
        return Err(NoMemory);
    }
    Ok(Learned::Blocked(place, tag))
}

/// A justification without a rule, where no state is among the grounds.
fn unless_groundless(
    alloc: Global,
    c: &Candidate,
    told: &Identifiers<'_>,
    rules: &Rules,
    s: &Learning,
) -> Result<Learned, NoMemory>
    ensures { IfOk result (λ l. learned_from (candidate_seen c.now) (unless_groundless_told (candidate_seen c.now) (chain_seen told.now.chain.now) told.now.depth (map rule_seen rules.now) s.now) ≡ Some (learned_seen l)) }
{
    if has_state(told.chain.grounds.as_slice()) {
        unless_justified(alloc, c, told, rules, s)
    } else {
        Ok(Learned::Justified(None, Cause::NoGrounds))
    }
}

fn has_state(elements: &[Element]) -> bool
    ensures { result ≡ list_any (λ e. e.of_state) elements.now }
{
    'elements: for element in elements {
        if element.of_state {
            return true;
        }
    }
    false
}

/// A justification, where there is a cause for it.
fn unless_justified(
    alloc: Global,
    c: &Candidate,
    told: &Identifiers<'_>,
    rules: &Rules,
    s: &Learning,
) -> Result<Learned, NoMemory>
    ensures { IfOk result (λ l. learned_from (candidate_seen c.now) (unless_justified_told (candidate_seen c.now) (map rule_seen rules.now) s.now (cause_told (candidate_seen c.now) (chain_seen told.now.chain.now) told.now.depth s.now)) ≡ Some (learned_seen l)) }
{
    match cause_against(alloc, c, told, s)? {
        Some(why) => justified(alloc, c, why),
        None => unless_reused(alloc, c, rules, s),
    }
}
