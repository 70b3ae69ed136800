// What a node hears of, as the rows that it reads and the elements of its pattern come and go.
ghost use Rattle.std.specs.Prelude.{◌≡◌, ◌||◌, ◌&&◌, not, true, false, []};
ghost use Rattle.slab.specs.Slab.{get};
ghost use Rattle.node_memory.specs.Held.{Holds};
ghost use Rattle.node_table.specs.Serving.{found, come_at, gone_at, IsKeyed};
ghost use Rattle.node_table.specs.Hearing.{is_nothing, IsBarren, IsAskedFor, AllAsk, HearsEnough, hears_some};

use crate::node::{Hears, Node, Step};
use crate::serving::{come_at, gone_at};
use node_memory::Memory;
use rete_alpha::Alpha;
use slab::Slab;

/// Whether a memory has a row.
pub fn has_rows(memory: &Memory) -> bool
    ensures { result ≡ false → Holds (found memory.now) [] }
{
    !memory.rows.is_empty()
}

/// Whether the pattern memory of a step has a member. A negation has none, and is taken for one that always has some, since it has
/// to hear of rows.
pub fn has_members(alpha: &Alpha, step: &Step, number: usize) -> bool
    requires works { alpha.now.failed ≡ false }
    requires asked { IsAskedFor alpha.now step.now number }
    ensures { result ≡ false → IsBarren step.now alpha.now.elements }
{
    match step {
        Step::Join(_) => !alpha.members(number).is_empty(),
        Step::Negation(_) => true,
    }
}

/// Whether a node tells of a change.
fn tells(node: &Node, stamp: u64) -> bool
    ensures { result ≡ not (is_nothing (come_at stamp node.now) && is_nothing (gone_at stamp node.now)) }
{
    !(come_at(node, stamp).is_empty() && gone_at(node, stamp).is_empty())
}

/// What a node goes on to hear of, by whether its parent has rows and its pattern members, and whether it was reached by rows.
///
/// It hears of each side while the other has something. A side that reached it while the other had nothing, it leaves out from
/// then on. While both are empty it hears of what it heard.
pub fn hears(was: Hears, rows: bool, members: bool, by_rows: bool) -> Hears
    ensures elements { rows ≡ true → result.elements ≡ true }
    ensures rows { members ≡ true → result.rows ≡ true }
    ensures either { hears_some was ≡ true → hears_some result ≡ true }
{
    Hears {
        rows: members || (was.rows && !(rows && by_rows)),
        elements: rows || (was.elements && (by_rows || !members)),
    }
}

/// What the node of a number goes on to hear of after a change.
pub fn hears_at(nodes: &Slab<Node>, alpha: &Alpha, n: usize, stamp: u64) -> Hears
    requires keyed { IsKeyed (get nodes.now) n }
    requires works { alpha.now.failed ≡ false }
    requires asked { AllAsk (get nodes.now) alpha.now }
    ensures { HearsEnough (get nodes.now) n alpha.now.elements result }
{
    let Some(node) = nodes.get(n) else {
        unreachable!();
    };
    let Some(key) = &node.key else {
        unreachable!();
    };
    let Some(parent) = nodes.get(key.parent) else {
        unreachable!();
    };
    let rows = has_rows(&parent.memory);
    let members = has_members(alpha, &key.step, node.alpha);
    hears(node.hears, rows, members, tells(parent, stamp))
}
