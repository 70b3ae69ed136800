// The tables that have one of some tags.
ghost use Rattle.std.specs.Prelude.{◌≡◌, map};
ghost use Rattle.std.specs.BTreeSet.{keys};
ghost use Rattle.std.specs.List.{list_any};
ghost use Rattle.dependency_tables.specs.Tables.{first_with, is_among};

use std::collections::BTreeSet;

/// The depth of the first table, from depth 2 on, that has one of the tags.
#[tactic(auto, using(crate::proofs::FindingLemmas::none_found))]
pub(crate) fn highest_with(tables: &[BTreeSet<u32>], tags: &[u32]) -> Option<usize>
    ensures { result ≡ first_with (is_among tags.now) 2 (map keys tables.now) }
{
    if tags.is_empty() {
        return None;
    }
    first_with(tables, tags)
}

fn first_with(tables: &[BTreeSet<u32>], tags: &[u32]) -> Option<usize>
    ensures { result ≡ first_with (is_among tags.now) 2 (map keys tables.now) }
{
    'tables: for (below, table) in tables.iter().enumerate() {
        if has_any(table, tags) {
            return Some(below + 2);
        }
    }
    None
}

/// Whether a table has one of the tags.
fn has_any(table: &BTreeSet<u32>, tags: &[u32]) -> bool
    ensures { result ≡ list_any (is_among tags.now) table.now.keys }
{
    is_any_among(table, tags)
}

fn is_any_among(table: &BTreeSet<u32>, tags: &[u32]) -> bool
    ensures { result ≡ list_any (is_among table.now.keys) tags.now }
{
    'tags: for tag in tags {
        if has(table, *tag) {
            return true;
        }
    }
    false
}

fn has(table: &BTreeSet<u32>, tag: u32) -> bool
    ensures { result ≡ is_among table.now.keys tag }
{
    table.contains(&tag)
}
