// One triple for each condition.
ghost use Rattle.std.specs.Prelude.{◌≡◌, [], ◌∷◌, true, map, IfOk, OnOk, if◌then◌else◌};
ghost use Rattle.soar_rule.specs.Conditions.{all_of, condition, conjunctive};
ghost use Rattle.defs_read.specs.ConditionExpansion.{part_conditions, parts_conditions};
ghost use Rattle.defs_read.specs.FreshNames.{expanded};
ghost use Rattle.defs_read.specs.Grammar.{part_and};
ghost use Rattle.defs_read.specs.Reading.{parts_of};
ghost use Rattle.tree_parts.specs.Seen.{part_seen};
ghost use Rattle.read_parts.specs.Naming.{are_kept, fresh_seen};
ghost use Rattle.read_parts.specs.Grouping.{group_of};

use read_parts::{Names, Source, append_conditions, group, one_condition, signed};
use soar_rule::Cond;
use soar_sym::{List, NoMemory};
use std::alloc::Global;
use tree_parts::Part;

/// One condition or more in braces, negated as a whole.
fn joined(alloc: Global, negative: bool, conds: List<Cond>) -> Result<List<Cond>, NoMemory>
    ensures { IfOk result (λ out. map condition out ≡ (if negative then conjunctive (all_of (map condition conds)) ∷ [] else map condition conds)) }
{
    if !negative {
        return Ok(conds);
    }
    one_condition(alloc, Cond::Conj(conds))
}

/// The conditions of a part of the tree.
#[cycle(parts)]
fn part(source: &Source<'_>, names: &mut Names, tree: &Part) -> Result<List<Cond>, NoMemory>
    requires { are_kept source.now names.old ≡ true }
    ensures conditions { IfOk result (λ conds. part_conditions (part_seen source.now.table.now tree.now) source.now.table.now (fresh_seen source.now names.old) ≡ expanded (map condition conds) (fresh_seen source.now names.new)) }
    ensures kept { OnOk result (are_kept source.now names.new ≡ true) }
{
    match tree {
        Part::Grouped(negative, tree) => {
            let conds = group(
                source,
                names,
                tree.state,
                &tree.field,
                tree.tests.as_slice(),
            )?;
            signed(source.alloc, *negative, conds)
        }
        Part::Joined(negative, inside) => {
            if inside.is_empty() {
                let conds = group(source, names, false, &None, &[])?;
                return signed(source.alloc, *negative, conds);
            }
            let conds = parts(source, names, inside.as_slice())?;
            joined(source.alloc, *negative, conds)
        }
    }
}

/// The conditions of parts of the tree, one after another.
#[cycle(parts)]
fn parts(source: &Source<'_>, names: &mut Names, trees: &[Part]) -> Result<List<Cond>, NoMemory>
    requires { are_kept source.now names.old ≡ true }
    ensures conditions { IfOk result (λ conds. parts_conditions (parts_of (map (part_seen source.now.table.now) trees.now)) source.now.table.now (fresh_seen source.now names.old) ≡ expanded (map condition conds) (fresh_seen source.now names.new)) }
    ensures kept { OnOk result (are_kept source.now names.new ≡ true) }
{
    let mut conds = List::new(source.alloc);
    'trees: for tree in trees {
        let here = part(source, names, tree)?;
        append_conditions(&mut conds, here)?;
    }
    Ok(conds)
}

/// The conditions of one part or more.
pub fn conditions(
    source: &Source<'_>,
    names: &mut Names,
    first: &Part,
    others: &[Part],
) -> Result<List<Cond>, NoMemory>
    requires { are_kept source.now names.old ≡ true }
    ensures conditions { IfOk result (λ conds. parts_conditions (part_and (part_seen source.now.table.now first.now) (parts_of (map (part_seen source.now.table.now) others.now))) source.now.table.now (fresh_seen source.now names.old) ≡ expanded (map condition conds) (fresh_seen source.now names.new)) }
    ensures kept { OnOk result (are_kept source.now names.new ≡ true) }
{
    let mut conds = part(source, names, first)?;
    let more = parts(source, names, others)?;
    append_conditions(&mut conds, more)?;
    Ok(conds)
}
