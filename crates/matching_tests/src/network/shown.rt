// Instances as text.
use defs_match::Instance;
use match_changes::MatchKey;
use soar_sym::{List, NoMemory, Sym};
use std::alloc::Global;
use std::collections::BTreeMap;

/// Each instance by its rule, its tags and what its variables stand for, as `1 6 7:S12;`, and a bar behind all of them.
pub fn add_instances(
    alloc: Global,
    instances: &List<Instance>,
    out: &mut String,
) -> Result<(), NoMemory> {
    for instance in instances.as_slice() {
        add_instance(alloc, instance, out)?;
    }
    Ok(out.push('|')?)
}

/// Whether these are the instances of a map.
pub fn same_instances(
    alloc: Global,
    set: &BTreeMap<MatchKey, Instance>,
    instances: &List<Instance>,
) -> Result<bool, NoMemory> {
    let mut wanted = String::new(alloc);
    add_instances(alloc, instances, &mut wanted)?;
    let mut held = String::new(alloc);
    for instance in set.values() {
        add_instance(alloc, instance, &mut held)?;
    }
    held.push('|')?;
    Ok(held.as_str() == wanted.as_str())
}

fn add_instance(alloc: Global, instance: &Instance, out: &mut String) -> Result<(), NoMemory> {
    let rule = instance.rule;
    out.push_str(format!(in alloc; "{rule}")?.as_str())?;
    add_tags(alloc, instance.tags.as_slice(), out)?;
    add_symbols(instance.binds.as_slice(), out)
}

fn add_tags(alloc: Global, tags: &[u32], out: &mut String) -> Result<(), NoMemory> {
    for tag in tags {
        out.push_str(format!(in alloc; " {tag}")?.as_str())?;
    }
    Ok(out.push(':')?)
}

fn add_symbols(symbols: &[Sym], out: &mut String) -> Result<(), NoMemory> {
    for symbol in symbols {
        out.push(letter_of(*symbol))?;
    }
    Ok(out.push(';')?)
}

/// An identifier by its letter, and an integer by its last digit.
fn letter_of(symbol: Sym) -> char {
    match symbol {
        Sym::Ident { letter, .. } => char::from(letter),
        Sym::Int(value) => char::from(b'0' + u8::try_from(value).unwrap_or(0) % 10),
        Sym::Word(_) => 'w',
    }
}
