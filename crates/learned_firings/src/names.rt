// Names of learned rules: `chunk*N`, `justification*N`.
ghost use Rattle.std.specs.Prelude.{◌≡◌, length, map, string_bytes, IfOk};
ghost use Rattle.defs_match.specs.Rules.{rule_seen};
ghost use Rattle.defs_soar.specs.LearnedRules.{free_number, learned_name};
ghost use Rattle.soar_fire.specs.Growth.{OnlyGrows};
ghost use Rattle.learned_firings.specs.Naming.{IsName, Names, Spells, Tries};

use crate::counts::next_count;
use defs_soar::Which;
use rule_shelf::Rules;
use soar_settle::Stop;
use soar_sym::{InternFault, Sym, SymTable};
use std::alloc::{AllocError, Global};

/// The name of a learned rule, and the number in it.
#[derive(Clone, Copy)]
pub struct LearnedName {
    pub number: u64,
    pub name: Sym,
}

/// The next name with this front that no rule has, behind the last number with it. It joins the table (names are this
/// engine's).
pub fn new_name(
    alloc: Global,
    table: &mut SymTable,
    rules: &Rules,
    front: &str,
    last: u64,
) -> Result<LearnedName, Stop>
    ensures answer { Names table.old (map rule_seen rules.now) front.now last table.new result }
    ensures grown { OnlyGrows table.old table.new }
{
    let first = next_count(last)?;
    first_free(alloc, table, rules, front, first)
}

/// The name of the first number from this one on whose name no rule has. As many as there are rules can be in the way.
fn first_free(
    alloc: Global,
    table: &mut SymTable,
    rules: &Rules,
    front: &str,
    first: u64,
) -> Result<LearnedName, Stop>
    ensures answer { IsName table.old front.now (free_number (length rules.now) table.old (map rule_seen rules.now) front.now first) table.new result }
    ensures grown { OnlyGrows table.old table.new }
{
    let mut number = first;
    'tries: for _ in 0..rules.len() {
        match name_tried(alloc, table, rules, front, number)? {
            Some(name) => return Ok(name),
            None => number = next_count(number)?,
        }
    }
    spelled(alloc, table, front, number)
}

/// The name of this number, where no rule has it. A name that a rule has is in the table, which stays.
fn name_tried(
    alloc: Global,
    table: &mut SymTable,
    rules: &Rules,
    front: &str,
    number: u64,
) -> Result<Option<LearnedName>, Stop>
    ensures answer { Tries table.old (map rule_seen rules.now) front.now number table.new result }
    ensures grown { OnlyGrows table.old table.new }
{
    table.law();
    let count = table.word_count();
    let name = spelled(alloc, table, front, number)?;
    if table.word_count() == count && rules.has_name(name.name) {
        Ok(None)
    } else {
        Ok(Some(name))
    }
}

/// The name of a number joins the table.
fn spelled(
    alloc: Global,
    table: &mut SymTable,
    front: &str,
    number: u64,
) -> Result<LearnedName, Stop>
    ensures answer { IsName table.old front.now number table.new result }
    ensures grown { OnlyGrows table.old table.new }
{
    let text = name_text(alloc, front, number)?;
    let name = intern(table, text.as_str())?;
    Ok(LearnedName { number, name })
}

fn name_text(alloc: Global, front: &str, number: u64) -> Result<String, AllocError>
    ensures { IfOk result (λ text. string_bytes text ≡ learned_name front.now number) }
{
    format!(in alloc; "{front}{number}")
}

/// The word of a text, which joins the table where it is new.
#[tactic(auto, using(crate::proofs::NameLemmas::text_fits, crate::proofs::NameLemmas::text_spends, crate::proofs::NameLemmas::word_is, soar_fire::proofs::GrowthLemmas::grown_by, soar_fire::proofs::GrowthLemmas::grown_same))]
fn intern(table: &mut SymTable, text: &str) -> Result<Sym, Stop>
    ensures answer { Spells table.old text.now table.new result }
    ensures grown { OnlyGrows table.old table.new }
{
    match table.intern(text) {
        Ok(word) => Ok(word),
        Err(InternFault::WordsSpent) => Err(Stop::Limit(Which::Words)),
        Err(InternFault::NoMemory) => Err(Stop::NoMemory),
    }
}
