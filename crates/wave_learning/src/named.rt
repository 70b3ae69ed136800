// The name of a rule that is learned.
ghost use Rattle.std.specs.Prelude.{◌≡◌, OnOk};
ghost use Rattle.soar_sym.specs.Words.{Texts};
ghost use Rattle.soar_fire.specs.Growth.{OnlyGrows};
ghost use Rattle.wave_learning.specs.Course as course;
ghost use Rattle.wave_learning.specs.Hands.{program_seen};
ghost use Rattle.wave_learning.specs.Seen.{NamesRule, course_of, rule_made};

use crate::going::Going;
use crate::program::Program;
use crate::rules::NewRule;
use defs_soar::Cause;
use learned_firings::{LearnedName, new_name};
use soar_settle::Stop;
use soar_sym::{NoMemory, SymTable};
use std::alloc::Global;

/// Names a rule `chunk*N` or `justification*N`, each kind counted by itself. A chunk counts for this cycle.
pub(crate) fn named(
    alloc: Global,
    table: &mut SymTable,
    going: &mut Going,
    rule: NewRule,
) -> Result<NewRule, Stop>
    ensures answer { NamesRule (rule_made rule) (course_of table.old going.old) (course_of table.new going.new) result }
    ensures words { OnlyGrows table.old table.new }
{
    let last = last_of(&going.hand.program, rule.why);
    let name = new_name(
        alloc,
        table,
        &going.hand.program.rules,
        front_of(rule.why),
        last,
    )?;
    count(going, rule.why, name.number)?;
    Ok(with_name(rule, name))
}

fn with_name(rule: NewRule, name: LearnedName) -> NewRule
    ensures { rule_made result ≡ course.with_name (rule_made rule) name.name }
{
    let mut rule = rule;
    rule.production.name = name.name;
    rule
}

fn front_of(why: Option<Cause>) -> &'static str
    ensures { result.now ≡ course.front_of why }
{
    match why {
        None => "chunk*",
        Some(_) => "justification*",
    }
}

/// The number in the last name of this kind.
fn last_of(program: &Program, why: Option<Cause>) -> u64
    ensures { result ≡ course.last_of why (program_seen program.now) }
{
    match why {
        None => program.chunks,
        Some(_) => program.justifications,
    }
}

/// Counts a name of this kind, and a chunk for this cycle.
fn count(going: &mut Going, why: Option<Cause>, number: u64) -> Result<(), NoMemory>
    ensures { (words : Texts) → OnOk result (course_of words going.new ≡ course.counted why number (course_of words going.old)) }
{
    match why {
        None => {
            let Some(learned) = going.hand.learned.checked_add(1) else {
                return Err(NoMemory);
            };
            going.hand.learned = learned;
            going.hand.program.chunks = number;
        }
        Some(_) => going.hand.program.justifications = number,
    }
    Ok(())
}
