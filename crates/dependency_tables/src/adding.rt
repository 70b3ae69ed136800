// Tags that join tables.
ghost use Rattle.std.specs.Prelude.{◌≡◌, map, OnOk};
ghost use Rattle.std.specs.BTreeSet.{insert_key, keys};
ghost use Rattle.std.specs.Ordering.{nat_cmp};
ghost use Rattle.dependency_tables.specs.Tables.{each_with_tags, with_tags};
ghost use Rattle.dependency_tables.specs.Places.{with_tags_at};

use soar_sym::{List, NoMemory};
use std::collections::BTreeSet;

/// Adds to each table the tags at its place. Those for which there is no table are let go.
pub(crate) fn add_each(tables: &mut Vec<BTreeSet<u32>>, tags: &[List<u32>]) -> Result<(), NoMemory>
    ensures { OnOk result (map keys tables.new.items ≡ each_with_tags (map keys tables.old.items) tags.now) }
{
    'tags: for (place, more) in tags.iter().enumerate() {
        add_at(tables, place, more.as_slice())?;
    }
    Ok(())
}

fn add_at(tables: &mut Vec<BTreeSet<u32>>, place: usize, more: &[u32]) -> Result<(), NoMemory>
    ensures { OnOk result (map keys tables.new.items ≡ with_tags_at place more.now (map keys tables.old.items)) }
{
    match tables.get_mut(place) {
        Some(table) => add_tags(table, more),
        None => Ok(()),
    }
}

fn add_tags(table: &mut BTreeSet<u32>, tags: &[u32]) -> Result<(), NoMemory>
    ensures { OnOk result (table.new.keys ≡ with_tags tags.now table.old.keys) }
{
    'tags: for tag in tags {
        add_tag(table, *tag)?;
    }
    Ok(())
}

/// Adds a tag, where it is new.
fn add_tag(table: &mut BTreeSet<u32>, tag: u32) -> Result<(), NoMemory>
    ensures { OnOk result (table.new.keys ≡ insert_key nat_cmp table.old.keys tag) }
{
    table.insert(tag)?;
    Ok(())
}
