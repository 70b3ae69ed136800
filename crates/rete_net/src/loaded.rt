// The loaded rules, and the network that serves them.
ghost use Rattle.std.specs.Prelude.{◌≡◌, map, [], false, OnOk, IfOk};
ghost use Rattle.std.specs.List.{list_any};
ghost use Rattle.std.specs.Map.{values_of};
ghost use Rattle.soar_wm.specs.WorkingMemory.{has_tag, without_tag};
ghost use Rattle.defs_match.specs.Conflict as meaning;
ghost use Rattle.defs_match.specs.Contents.{with_element, with_rule, without_rule, is_numbered, HasTag};
ghost use Rattle.defs_match.specs.Rules.{rule_seen};
ghost use Rattle.rete_beta.specs.Joins.{node_at};
ghost use Rattle.rete_beta.specs.Told.{IsTold};
ghost use Rattle.rete_net.specs.Chains.{rule_of, IsServed};
ghost use Rattle.rete_net.specs.Ends.{end_of};
ghost use Rattle.rete_net.specs.Loads.{IsLoaded};
ghost use Rattle.rete_net.specs.Requests.{HasRoot, Grows, key_in};

use crate::asking::ask_all;
use crate::chain::Chain;
use crate::dropping::drop_all;
use crate::reading;
use defs_match::{Instance, Rule};
use node_agenda::{Turn, TurnIndex, TurnKey};
use rete_beta::Joins;
use soar_rule::canonical;
use soar_sym::{List, NoMemory};
use soar_wm::Element;
use std::alloc::Global;
use std::collections::BTreeMap;

/// The network, the chains of the loaded rules by number, and which rules end at a node.
#[derive(Drop)]
pub struct Loaded {
    pub joins: Joins,
    pub chains: BTreeMap<u64, Chain>,
    pub ends: TurnIndex,
}

/// The end of a rule: under its last node its turn, which is by its number.
fn end_of(last: usize, number: u64) -> TurnKey
    ensures { result ≡ end_of last number }
{
    TurnKey {
        number: last,
        turn: Turn {
            made: number,
            node: last,
        },
    }
}

/// Asks for the nodes of a rule, whose variables are numbered by first occurrence.
fn chain_of(alloc: Global, joins: &mut Joins, rule: &Rule) -> Result<Chain, NoMemory>
    requires works { joins.old.failed ≡ false }
    requires root { HasRoot (node_at joins.old) }
    ensures works { OnOk result (joins.new.failed ≡ false) }
    ensures rule { IfOk result (λ chain. chain.rule ≡ rule.now) }
    ensures served { IfOk result (λ chain. IsServed (key_in (node_at joins.new)) chain) }
    ensures grows { IfOk result (λ chain. Grows (node_at joins.old) (node_at joins.new) chain.nodes) }
    ensures elements { OnOk result (joins.new.elements ≡ joins.old.elements) }
{
    let rule = rule.share()?;
    let form = canonical(alloc, &rule.production)?;
    let mut nodes = List::new(alloc);
    let last = ask_all(joins, 0, form.conds.as_slice(), &mut nodes)?;
    Ok(Chain { rule, nodes, last })
}

/// Loads a rule whose number is new.
pub fn load(alloc: Global, loaded: &mut Loaded, rule: &Rule) -> Result<(), NoMemory>
    requires loaded { IsLoaded loaded.old }
    requires new { list_any (is_numbered rule.now.number) (map rule_of (values_of loaded.old.chains.entries)) ≡ false }
    ensures loaded { OnOk result (IsLoaded loaded.new) }
    ensures rules { OnOk result (map rule_of (values_of loaded.new.chains.entries) ≡ with_rule (map rule_of (values_of loaded.old.chains.entries)) (rule_seen rule.now)) }
    ensures elements { OnOk result (loaded.new.joins.elements ≡ loaded.old.joins.elements) }
{
    let chain = chain_of(alloc, &mut loaded.joins, rule)?;
    loaded.ends.add(end_of(chain.last, chain.rule.number))?;
    loaded.chains.insert(rule.number, chain)?;
    Ok(())
}

/// Takes the rule of a number out. It takes no memory.
pub fn unload(loaded: &mut Loaded, number: u64)
    requires loaded { IsLoaded loaded.old }
    ensures loaded { IsLoaded loaded.new }
    ensures rules { map rule_of (values_of loaded.new.chains.entries) ≡ without_rule (map rule_of (values_of loaded.old.chains.entries)) number }
    ensures elements { loaded.new.joins.elements ≡ loaded.old.joins.elements }
{
    if let Some(chain) = loaded.chains.remove(&number) {
        loaded.ends.remove(&end_of(chain.last, chain.rule.number));
        drop_all(&mut loaded.joins, chain.nodes);
    }
}

/// Takes in an element whose tag is new, and answers the nodes that this reached.
pub fn add(loaded: &mut Loaded, element: Element) -> Result<List<usize>, NoMemory>
    requires loaded { IsLoaded loaded.old }
    requires new { list_any (has_tag element.tag) loaded.old.joins.elements ≡ false }
    ensures loaded { OnOk result (IsLoaded loaded.new) }
    ensures chains { OnOk result (loaded.new.chains.entries ≡ loaded.old.chains.entries) }
    ensures elements { OnOk result (loaded.new.joins.elements ≡ with_element loaded.old.joins.elements element) }
    ensures told { IfOk result (λ served. IsTold loaded.old.joins loaded.new.joins served) }
{
    loaded.joins.add(element)
}

/// Takes the element of a tag out, and answers the nodes that this reached.
pub fn remove(loaded: &mut Loaded, tag: u32) -> Result<List<usize>, NoMemory>
    requires loaded { IsLoaded loaded.old }
    requires there { HasTag loaded.old.joins.elements tag }
    ensures loaded { OnOk result (IsLoaded loaded.new) }
    ensures chains { OnOk result (loaded.new.chains.entries ≡ loaded.old.chains.entries) }
    ensures elements { OnOk result (loaded.new.joins.elements ≡ without_tag tag loaded.old.joins.elements) }
    ensures told { IfOk result (λ served. IsTold loaded.old.joins loaded.new.joins served) }
{
    loaded.joins.remove(tag)
}

/// The conflict set.
pub fn conflict(alloc: Global, loaded: &Loaded) -> Result<List<Instance>, NoMemory>
    requires { IsLoaded loaded.now }
    ensures { IfOk result (λ instances. instances ≡ meaning.conflict (map rule_of (values_of loaded.now.chains.entries)) loaded.now.joins.elements) }
{
    reading::conflict(alloc, &loaded.joins, &loaded.chains)
}

/// No rule, and no element.
pub fn start(alloc: Global) -> Result<Loaded, NoMemory>
    ensures loaded { IfOk result (λ loaded. IsLoaded loaded) }
    ensures chains { IfOk result (λ loaded. loaded.chains.entries ≡ []) }
    ensures elements { IfOk result (λ loaded. loaded.joins.elements ≡ []) }
{
    let joins = Joins::new(alloc)?;
    Ok(Loaded {
        joins,
        chains: BTreeMap::new(alloc),
        ends: TurnIndex::new(alloc),
    })
}
