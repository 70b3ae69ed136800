// The instances of loaded rules.
ghost use Rattle.std.specs.Prelude.{◌≡◌, ◌++◌, map, false, OnOk, IfOk};
ghost use Rattle.std.specs.Map.{values_of};
ghost use Rattle.defs_match.specs.Conflict as meaning;
ghost use Rattle.match_changes.specs.Told.{IsTheOne};
ghost use Rattle.rete_beta.specs.Joins.{node_at};
ghost use Rattle.rete_net.specs.Chains.{IsServed, AllServed, rule_of, numbered};
ghost use Rattle.rete_net.specs.Requests.{HasRoot, key_in};
ghost use Rattle.rete_net.specs.Telling.{match_key};

use crate::chain::Chain;
use defs_match::Instance;
use net_laws::canonical_forms_match;
use rete_beta::Joins;
use soar_sym::{List, NoMemory};
use std::alloc::Global;
use std::collections::BTreeMap;

/// Adds instances, under the number of a rule.
fn add_numbered(
    tokens: List<Instance>,
    number: u64,
    out: &mut List<Instance>,
) -> Result<(), NoMemory>
    ensures { OnOk result (out.new ≡ out.old ++ map (numbered number) tokens) }
{
    'tokens: for token in tokens.into_vec() {
        out.push(Instance {
            rule: number,
            tags: token.tags,
            binds: token.binds,
        })?;
    }
    Ok(())
}

/// Adds the instances of a rule: the rows of its last node.
pub fn add_instances(
    alloc: Global,
    joins: &Joins,
    chain: &Chain,
    out: &mut List<Instance>,
) -> Result<(), NoMemory>
    requires works { joins.now.failed ≡ false }
    requires root { HasRoot (node_at joins.now) }
    requires served { IsServed (key_in (node_at joins.now)) chain.now }
    ensures { OnOk result (out.new ≡ out.old ++ meaning.instances_of joins.now.elements (rule_of chain.now)) }
{
    canonical_forms_match();
    let tokens = joins.tokens(alloc, chain.last)?;
    add_numbered(tokens, chain.rule.number, out)
}

/// The instances of all rules: rule by rule, those of a rule by their tags.
pub fn conflict(
    alloc: Global,
    joins: &Joins,
    chains: &BTreeMap<u64, Chain>,
) -> Result<List<Instance>, NoMemory>
    requires works { joins.now.failed ≡ false }
    requires root { HasRoot (node_at joins.now) }
    requires served { AllServed (key_in (node_at joins.now)) (values_of chains.now.entries) }
    ensures { IfOk result (λ instances. instances ≡ meaning.conflict (map rule_of (values_of chains.now.entries)) joins.now.elements) }
{
    let mut out = List::new(alloc);
    'chains: for chain in chains.values() {
        add_instances(alloc, joins, chain, &mut out)?;
    }
    Ok(out)
}

/// The instance of a rule with these tags, where there is one: by one look-up among the rows of its last node.
pub fn instance(
    alloc: Global,
    joins: &Joins,
    chain: &Chain,
    tags: &List<u32>,
) -> Result<Option<Instance>, NoMemory>
    requires works { joins.now.failed ≡ false }
    requires root { HasRoot (node_at joins.now) }
    requires served { IsServed (key_in (node_at joins.now)) chain.now }
    ensures { IfOk result (λ found. IsTheOne (meaning.instances_of joins.now.elements (rule_of chain.now)) (match_key chain.now.rule.number tags.now) found) }
{
    canonical_forms_match();
    let Some(row) = joins.row(alloc, chain.last, tags)? else {
        return Ok(None);
    };
    Ok(Some(Instance {
        rule: chain.rule.number,
        tags: row.tags,
        binds: row.binds,
    }))
}
