// What is outstanding, as text.
use defs_match::Instance;
use outstanding::Open;
use soar_sym::{NoMemory, Sym};
use std::alloc::Global;

/// Each unfired instance by its rule, its tags and what its variables stand for, as `1 6 7:S12;`, and behind a dash those
/// of the unmatched firings, and a bar.
pub fn add_outstanding(alloc: Global, answer: &Open, out: &mut String) -> Result<(), NoMemory> {
    add_each(alloc, answer.unfired.as_slice(), out)?;
    out.push('-')?;
    for firing in answer.unmatched.as_slice() {
        add_instance(alloc, &firing.instance, out)?;
    }
    Ok(out.push('|')?)
}

/// Each of these instances, and a bar.
pub fn add_instances(
    alloc: Global,
    instances: &[Instance],
    out: &mut String,
) -> Result<(), NoMemory> {
    add_each(alloc, instances, out)?;
    Ok(out.push('|')?)
}

fn add_each(alloc: Global, instances: &[Instance], out: &mut String) -> Result<(), NoMemory> {
    for instance in instances {
        add_instance(alloc, instance, out)?;
    }
    Ok(())
}

fn add_instance(alloc: Global, instance: &Instance, out: &mut String) -> Result<(), NoMemory> {
    let rule = instance.rule;
    out.push_str(format!(in alloc; "{rule}")?.as_str())?;
    add_tags(alloc, instance.tags.as_slice(), out)?;
    add_symbols(instance.binds.as_slice(), out)
}

fn add_tags(alloc: Global, tags: &[u32], out: &mut String) -> Result<(), NoMemory> {
    for tag in tags {
        out.push_str(format!(in alloc; " {tag}")?.as_str())?;
    }
    Ok(out.push(':')?)
}

fn add_symbols(symbols: &[Sym], out: &mut String) -> Result<(), NoMemory> {
    for symbol in symbols {
        out.push(letter_of(*symbol))?;
    }
    Ok(out.push(';')?)
}

/// An identifier by its letter, and an integer by its last digit.
fn letter_of(symbol: Sym) -> char {
    match symbol {
        Sym::Ident { letter, .. } => char::from(letter),
        Sym::Int(value) => char::from(b'0' + u8::try_from(value).unwrap_or(0) % 10),
        Sym::Word(_) => 'w',
    }
}
