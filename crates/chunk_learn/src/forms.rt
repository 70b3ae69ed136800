// The forms of a candidate, as they are learned.
ghost use Rattle.std.specs.Prelude.{◌≡◌, Some, map, IfOk};
ghost use Rattle.chunk_learn.specs.Alike.{like_numbered, like_rule};
ghost use Rattle.chunk_learn.specs.Told.{learned_from, reused_by};
ghost use Rattle.defs_match.specs.Rules.{rule_seen};
ghost use Rattle.defs_soar.specs.CandidateOf.{candidate_seen, learned_seen};
ghost use Rattle.defs_soar.specs.Outcome as meaning;
ghost use Rattle.rule_shelf.specs.Shelf.{alike_numbers};
ghost use Rattle.soar_rule.specs.Productions.{production_seen};
ghost use Rattle.std.specs.Option.{option_copied, option_map};

use crate::bodies::same_body;
use body_marks::fingerprint;
use defs_match::Rule;
use defs_soar::{Candidate, Cause, Learned, Learning};
use rule_shelf::Rules;
use soar_rule::{Production, canonical};
use soar_sym::{NoMemory, Sym};
use std::alloc::Global;

/// At most so many chunks are learned in a cycle.
const MOST_CHUNKS: u32 = 50;

/// A rule with the same body, where one is there; else a chunk, where not too many were learned in this cycle.
pub fn unless_reused(
    alloc: Global,
    c: &Candidate,
    rules: &Rules,
    s: &Learning,
) -> Result<Learned, NoMemory>
    ensures { IfOk result (λ l. learned_from (candidate_seen c.now) (meaning.unless_reused s.now (reused_by (option_map production_seen c.now.general) (map rule_seen rules.now))) ≡ Some (learned_seen l)) }
{
    match reused(alloc, &c.general, rules)? {
        Some(name) => Ok(Learned::Reused(name)),
        None => {
            if s.learned < MOST_CHUNKS {
                chunk(alloc, c)
            } else {
                justified(alloc, c, Cause::TooMany(MOST_CHUNKS))
            }
        }
    }
}

/// The general form, where it is there.
fn chunk(alloc: Global, c: &Candidate) -> Result<Learned, NoMemory>
    ensures { IfOk result (λ l. learned_from (candidate_seen c.now) meaning.chunked ≡ Some (learned_seen l)) }
{
    match &c.general {
        Some(production) => Ok(Learned::Chunk(production.copy(alloc)?)),
        None => Err(NoMemory),
    }
}

/// The literal form, where it is there, and why it is that.
pub fn justified(alloc: Global, c: &Candidate, why: Cause) -> Result<Learned, NoMemory>
    ensures { IfOk result (λ l. learned_from (candidate_seen c.now) (meaning.justified why) ≡ Some (learned_seen l)) }
{
    match &c.literal {
        Some(production) => Ok(Learned::Justified(Some(production.copy(alloc)?), why)),
        None => Err(NoMemory),
    }
}

/// The name of the first rule with the same body as the general form.
#[tactic(auto, using(crate::proofs::AlikeLemmas::found_alike))]
fn reused(
    alloc: Global,
    general: &Option<Production>,
    rules: &Rules,
) -> Result<Option<Sym>, NoMemory>
    ensures { IfOk result (λ name. name ≡ reused_by (option_map production_seen general.now) (map rule_seen rules.now)) }
{
    match general {
        Some(production) => {
            rules.law();
            let form = canonical(alloc, production)?;
            let name = first_like(alloc, &form, fingerprint(production), rules)?;
            Ok(name)
        }
        None => Ok(None),
    }
}

/// The name of the first rule of the fingerprint whose canonical form has the body of this one.
fn first_like(
    alloc: Global,
    form: &Production,
    fingerprint: u64,
    rules: &Rules,
) -> Result<Option<Sym>, NoMemory>
    ensures { IfOk result (λ name. name ≡ like_numbered (production_seen form.now) (map rule_seen rules.now) (alike_numbers fingerprint (map rule_seen rules.now))) }
{
    'places: for place in rules.alike(fingerprint) {
        let name = like_rule(alloc, form, rules.get(place.1))?;
        if name.is_some() {
            return Ok(name);
        }
    }
    Ok(None)
}

/// The name of a rule, if its canonical form has the body of this one.
fn like_rule(alloc: Global, form: &Production, rule: Option<&Rule>) -> Result<Option<Sym>, NoMemory>
    ensures { IfOk result (λ name. name ≡ like_rule (production_seen form.now) (option_map rule_seen (option_copied rule.entry))) }
{
    match rule {
        Some(rule) => {
            let other = canonical(alloc, &rule.production)?;
            if same_body(form, &other) {
                Ok(Some(rule.production.name))
            } else {
                Ok(None)
            }
        }
        None => Ok(None),
    }
}
