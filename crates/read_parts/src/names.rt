// The names of variables: those of the text, and new ones.
ghost use Rattle.std.specs.Prelude.{◌≡◌, ◌+◌, ◌≤◌, [], true, false, length, IfOk, OnOk};
ghost use Rattle.std.specs.List.{position_or_len};
ghost use Rattle.std.specs.Str.{bytes_eq};
ghost use Rattle.indexmap.specs.IndexSet.{insert_key};
ghost use Rattle.soar_sym.specs.Words.{text_of};
ghost use Rattle.soar_rule.specs.declared.cond.Atom.TheVariants.{Var};
ghost use Rattle.defs_read.specs.FieldExpansion.{atom_of};
ghost use Rattle.defs_read.specs.FreshNames.{expanded, free_number, fresh_variable, has_name, new_name};
ghost use Rattle.defs_read.specs.Grammar.{a_variable};
ghost use Rattle.defs_read.specs.Sayings.{word_text};
ghost use Rattle.read_parts.specs.Naming.{are_kept, fresh_seen, name_eq, used_texts};
ghost use Rattle.read_parts.specs.Using.{is_variable};
ghost use Rattle.read_parts.specs.Words.{are_words_known, begins_dollar, has_word, texts_of};

use crate::source::Source;
use indexmap::IndexSet;
use itoa::Buffer;
use soar_rule::Atom;
use soar_sym::{NoMemory, Sym, SymTable, Text};
use std::alloc::Global;

/// The name of a variable: a word of the text, or `$` and a number.
#[derive(Clone, Copy, PartialEq, Eq, Hash)]
pub enum Name {
    Given(u32),
    New(u64),
}

/// The names of the variables so far, in order, and the number from which new ones go on.
#[derive(Drop)]
pub struct Names {
    pub list: IndexSet<Name>,
    pub next: u64,
}

impl Names {
    /// No names. It takes no memory.
    pub fn new(alloc: Global) -> Names
        ensures list { result.list.keys ≡ [] }
        ensures next { result.next ≡ 1 }
    {
        Names {
            list: IndexSet::new(alloc),
            next: 1,
        }
    }
}

/// The place of a name, which is added at the end where it is new.
fn add(list: &mut IndexSet<Name>, name: Name) -> Result<usize, NoMemory>
    ensures place { IfOk result (λ n. n ≡ position_or_len (name_eq name) list.old.keys) }
    ensures keys { OnOk result (list.new.keys ≡ insert_key name_eq list.old.keys name) }
{
    let (place, _) = list.insert_full(name)?;
    Ok(place)
}

/// The variable at a place. There are never so many that it has no number.
fn variable(place: usize) -> Result<Atom, NoMemory>
    ensures { IfOk result (λ a. a ≡ Var place) }
{
    let number = u32::try_from(place).map_err(|_| NoMemory)?;
    Ok(Atom::Var(number))
}

/// The variable of a word that is a variable of the text.
fn given(source: &Source<'_>, names: &mut Names, word: u32) -> Result<Atom, NoMemory>
    requires used { is_variable source.now.table.now source.now.uses.now.used word ≡ true }
    requires kept { are_kept source.now names.old ≡ true }
    ensures variable { IfOk result (λ a. atom_of source.now.table.now (a_variable (text_of source.now.table.now word)) (fresh_seen source.now names.old) ≡ expanded a (fresh_seen source.now names.new)) }
    ensures kept { OnOk result (are_kept source.now names.new ≡ true) }
{
    let place = add(&mut names.list, Name::Given(word))?;
    let variable = variable(place)?;
    Ok(variable)
}

/// The variable of a name. Each that a tree has stands in its text.
pub fn named(source: &Source<'_>, names: &mut Names, name: Sym) -> Result<Atom, NoMemory>
    requires { are_kept source.now names.old ≡ true }
    ensures variable { IfOk result (λ a. atom_of source.now.table.now (a_variable (word_text source.now.table.now name)) (fresh_seen source.now names.old) ≡ expanded a (fresh_seen source.now names.new)) }
    ensures kept { OnOk result (are_kept source.now names.new ≡ true) }
{
    let Sym::Word(word) = name else {
        return Err(NoMemory);
    };
    if !source.uses.variables.contains(&word) {
        return Err(NoMemory);
    }
    given(source, names, word)
}

// ---- new names

/// The text of a new name: `$` and its number.
pub fn new_name(alloc: Global, number: u64) -> Result<Text, NoMemory>
    ensures { IfOk result (λ text. text ≡ new_name number) }
{
    let mut text = Text::new(alloc);
    text.push('$')?;
    text.push_str(Buffer::new().format(number))?;
    Ok(text)
}

/// Whether a word has this text.
fn is_text(table: &SymTable, word: u32, text: &str) -> bool
    requires { has_word table.now word ≡ true }
    ensures { result ≡ bytes_eq text.now (text_of table.now word) }
{
    text == table.text(word)
}

/// Whether one of the words has this text.
fn has_text(table: &SymTable, words: &[u32], text: &str) -> bool
    requires { are_words_known table.now words.now ≡ true }
    ensures { result ≡ has_name (texts_of table.now words.now) text.now }
{
    'words: for word in words {
        if is_text(table, *word, text) {
            return true;
        }
    }
    false
}

/// Whether a variable of the text has this new name.
#[tactic(auto, using(crate::proofs::UseLemmas::dollars_enough, crate::proofs::UseLemmas::all_filtered))]
fn is_used(source: &Source<'_>, name: &str) -> bool
    requires { begins_dollar name.now ≡ true }
    ensures { result ≡ has_name (used_texts source.now) name.now }
{
    has_text(source.table, source.uses.dollars.as_slice(), name)
}

/// Whether the new name of this number is used.
fn is_taken(source: &Source<'_>, number: u64) -> Result<bool, NoMemory>
    ensures { IfOk result (λ taken. taken ≡ has_name (used_texts source.now) (new_name number)) }
{
    let name = new_name(source.alloc, number)?;
    Ok(is_used(source, name.as_str()))
}

/// The number behind this one. No text has so many names that there is none.
fn following(number: u64) -> Result<u64, NoMemory>
    ensures { IfOk result (λ n. n ≡ number + 1) }
{
    number.checked_add(1).ok_or(NoMemory)
}

/// The first number from this one on whose name no variable of the text has.
#[tactic(auto, using(crate::proofs::NameLemmas::free_next, crate::proofs::NameLemmas::free_here, crate::proofs::NameLemmas::free_last))]
fn free_number(source: &Source<'_>, from: u64) -> Result<u64, NoMemory>
    ensures number { IfOk result (λ n. n ≡ free_number (length (used_texts source.now)) (used_texts source.now) from) }
    ensures free { IfOk result (λ n. has_name (used_texts source.now) (new_name n) ≡ false) }
    ensures later { IfOk result (λ n. from ≤ n) }
{
    let mut number = from;
    'used: for _ in 0..source.uses.used.len() {
        if !is_taken(source, number)? {
            return Ok(number);
        }
        number = following(number)?;
    }
    // No more names can be in the way than there are.
    if is_taken(source, number)? {
        return Err(NoMemory);
    }
    Ok(number)
}

/// A new variable.
pub fn fresh(source: &Source<'_>, names: &mut Names) -> Result<Atom, NoMemory>
    requires { are_kept source.now names.old ≡ true }
    ensures variable { IfOk result (λ a. fresh_variable (fresh_seen source.now names.old) ≡ expanded a (fresh_seen source.now names.new)) }
    ensures kept { OnOk result (are_kept source.now names.new ≡ true) }
{
    let number = free_number(source, names.next)?;
    let next = following(number)?;
    let place = add(&mut names.list, Name::New(number))?;
    names.next = next;
    let variable = variable(place)?;
    Ok(variable)
}
