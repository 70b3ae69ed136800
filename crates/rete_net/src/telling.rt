// What a change tells of the instances of loaded rules.
ghost use Rattle.std.specs.Prelude.{◌≡◌, ◌∷◌, ◌++◌, [], map, OnOk, IfOk};
ghost use Rattle.defs_match.specs.Conflict.{instances_of};
ghost use Rattle.match_changes.specs.Told.{key_of};
ghost use Rattle.node_memory.specs.Changes.{tags_of};
ghost use Rattle.rete_beta.specs.Joins.{node_at, told_at};
ghost use Rattle.rete_beta.specs.Told.{tags_told};
ghost use Rattle.rete_net.specs.Telling.{match_key, keys_by, keys_at, keys_told};

use defs_match::Instance;
use match_changes::MatchKey;
use match_row::Row;
use node_agenda::TurnIndex;
use rete_beta::Joins;
use soar_sym::{List, NoMemory};
use std::alloc::Global;

/// Adds the key of an instance of a rule.
fn add_key(alloc: Global, rule: u64, tags: &[u32], out: &mut List<MatchKey>) -> Result<(), NoMemory>
    ensures { OnOk result (out.new ≡ out.old ++ match_key rule tags.now ∷ []) }
{
    let tags = List::from_slice(alloc, tags)?;
    out.push(MatchKey { rule, tags })?;
    Ok(())
}

/// Adds the keys of rows that came, as instances of a rule.
fn add_come(
    alloc: Global,
    rule: u64,
    rows: &[Row],
    out: &mut List<MatchKey>,
) -> Result<(), NoMemory>
    ensures { OnOk result (out.new ≡ out.old ++ keys_by rule (tags_of rows.now)) }
{
    'rows: for row in rows {
        add_key(alloc, rule, row.tags(), out)?;
    }
    Ok(())
}

/// Adds the keys of rows that went, as instances of a rule.
fn add_gone(
    alloc: Global,
    rule: u64,
    gone: &[List<u32>],
    out: &mut List<MatchKey>,
) -> Result<(), NoMemory>
    ensures { OnOk result (out.new ≡ out.old ++ keys_by rule gone.now) }
{
    'gone: for tags in gone {
        add_key(alloc, rule, tags.as_slice(), out)?;
    }
    Ok(())
}

/// Adds what a node told, as instances of a rule.
fn add_of_rule(
    alloc: Global,
    joins: &Joins,
    n: usize,
    rule: u64,
    out: &mut List<MatchKey>,
) -> Result<(), NoMemory>
    ensures { OnOk result (out.new ≡ out.old ++ keys_by rule (tags_told (told_at joins.now n))) }
{
    add_come(alloc, rule, joins.come(n), out)?;
    add_gone(alloc, rule, joins.gone(n), out)?;
    Ok(())
}

/// Adds what a node told, as instances of each rule that ends at it.
fn add_of_node(
    alloc: Global,
    joins: &Joins,
    ends: &TurnIndex,
    n: usize,
    out: &mut List<MatchKey>,
) -> Result<(), NoMemory>
    ensures { OnOk result (out.new ≡ out.old ++ keys_at joins.now ends.now n) }
{
    let rules = ends.under(alloc, n)?;
    'rules: for rule in rules.as_slice() {
        add_of_rule(alloc, joins, n, rule.made, out)?;
    }
    Ok(())
}

/// What the nodes that a change reached tell of instances: nothing, where no rule ends at them.
pub fn tell(
    alloc: Global,
    joins: &Joins,
    ends: &TurnIndex,
    served: &[usize],
) -> Result<List<MatchKey>, NoMemory>
    ensures { IfOk result (λ told. told ≡ keys_told joins.now ends.now served.now) }
{
    let mut out = List::new(alloc);
    'served: for n in served {
        add_of_node(alloc, joins, ends, *n, &mut out)?;
    }
    Ok(out)
}

/// The keys of instances.
pub fn keys_of(alloc: Global, instances: List<Instance>) -> Result<List<MatchKey>, NoMemory>
    ensures { IfOk result (λ keys. keys ≡ map key_of instances) }
{
    let mut out = List::new(alloc);
    'instances: for instance in instances.into_vec() {
        out.push(MatchKey {
            rule: instance.rule,
            tags: instance.tags,
        })?;
    }
    Ok(out)
}
