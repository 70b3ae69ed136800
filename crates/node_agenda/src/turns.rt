// The turns of nodes, and the nodes of a number.
ghost use Rattle.std.specs.Prelude.{◌≡◌, ◌↔◌, ◌⊎◌, ◌≢◌, [], map, filter, OnOk, OnErr, IfOk};
ghost use Rattle.std.specs.BTreeMap.{IsOrdered};
ghost use Rattle.defs_match.specs.Laws.{IsIn};
ghost use Rattle.node_memory.specs.Runs.{front_while};
ghost use Rattle.node_agenda.specs.Turns.{TurnKeyOf, key_cmp, is_under, least_under, from_least};

use soar_sym::NoMemory;
use std::alloc::Global;
use std::collections::BTreeMap;
use std::marker::Model;

/// When it is a node's turn: nodes that were made earlier come first.
#[derive(Clone, Copy, PartialEq, Eq, PartialOrd, Ord)]
pub struct Turn {
    pub made: u64,
    pub node: usize,
}

/// The turn of a node under a number.
#[derive(Clone, Copy, PartialEq, Eq, PartialOrd, Ord)]
pub struct TurnKey {
    pub number: usize,
    pub turn: Turn,
}

/// The turns of nodes under numbers: those below a node, or those that ask for a pattern. What one change costs grows with the
/// logarithm of their number, and what a look-up costs with that and what it finds.
#[derive(Drop)]
pub struct TurnIndex {
    keys: BTreeMap<TurnKey, ()>,
}

impl Model for TurnIndex {
    ghost use Rattle.std.specs.Prelude.{List as ListOf};
    ghost use Rattle.std.specs.Map.{keys_of};
    ghost use Rattle.node_agenda.specs.Turns.{TurnKeyOf};

    ghost Value = { ListOf TurnKeyOf };

    ghost view = { λ a. keys_of a.keys.entries };
}

/// The turns under a number, by a walk over their keys.
fn run_of(alloc: Global, keys: &BTreeMap<TurnKey, ()>, number: usize) -> Result<Vec<Turn>, NoMemory>
    ensures run { IfOk result (λ v. v.items ≡ map (λ e. e.0.turn) (front_while (λ e. is_under number e.0) (from_least (least_under number) keys.now.entries))) }
    ensures ordered { OnOk result (IsOrdered key_cmp keys.now) }
{
    let _count = keys.len();
    let mut out = Vec::new(alloc);
    let least = TurnKey {
        number,
        turn: Turn { made: 0, node: 0 },
    };
    'run: for (key, _) in keys.range(least..) {
        if key.number != number {
            break 'run;
        }
        out.push(key.turn)?;
    }
    Ok(out)
}

impl TurnIndex {
    /// No turns. It takes no memory.
    pub fn new(alloc: Global) -> TurnIndex
        ensures { result ≡ [] }
    {
        TurnIndex {
            keys: BTreeMap::new(alloc),
        }
    }

    /// The turns under a number.
    pub fn under(&self, alloc: Global, number: usize) -> Result<Vec<Turn>, NoMemory>
        ensures { IfOk result (λ v. v.items ≡ map (λ k. k.turn) (filter (is_under number) self.now)) }
    {
        run_of(alloc, &self.keys, number)
    }

    /// Takes in a turn.
    pub fn add(&mut self, key: TurnKey) -> Result<(), NoMemory>
        ensures ok { OnOk result ((x : TurnKeyOf) → IsIn x self.new ↔ ((key ≡ x) ⊎ IsIn x self.old)) }
        ensures err { OnErr result (self.new ≡ self.old) }
    {
        self.keys.insert(key, ())?;
        Ok(())
    }

    /// Takes a turn out. It takes no memory.
    pub fn remove(&mut self, key: &TurnKey)
        ensures { (x : TurnKeyOf) → IsIn x self.new ↔ (IsIn x self.old × (key.now ≢ x)) }
    {
        let _count = self.keys.len();
        self.keys.remove(key);
    }
}
