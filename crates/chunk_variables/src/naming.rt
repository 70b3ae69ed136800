// The names of variables: a small letter and a number, from 1 for each letter.
ghost use Rattle.std.specs.Prelude.{◌≡◌, ◌+◌, ◌≤◌, ◌∷◌, [], decimal, map, IfOk, OnOk};
ghost use Rattle.soar_sym.specs.Letters.{last_of, with_last};
ghost use Rattle.chunk_variables.specs.Seen.{capital_of, variablized_seen};
ghost use Rattle.defs_soar.specs.Variablized.{names_from};

use crate::variables::Variablized;
use itoa::Buffer;
use soar_sym::{Letters, List, NoMemory, Text};
use std::alloc::Global;

/// The names of the items' variables. An identifier has to have a letter from `A` to `Z`.
pub(crate) fn names_of(alloc: Global, items: &[Variablized]) -> Result<List<Text>, NoMemory>
    ensures { IfOk result (λ names. names ≡ names_from [] (map variablized_seen items.now)) }
{
    let mut letters = Letters::new();
    let mut names = List::new(alloc);
    'items: for item in items {
        names.push(next_name(alloc, &mut letters, *item)?)?;
    }
    Ok(names)
}

/// The name of the next item's variable: its small letter, and how many variables of this letter there are with it.
///
/// The engine makes identifiers of the letters from `A` to `Z` alone. Any other has no name.
fn next_name(alloc: Global, letters: &mut Letters, item: Variablized) -> Result<Text, NoMemory>
    ensures name { IfOk result (λ name. name ≡ (capital_of item + 32) ∷ decimal (last_of letters.old (capital_of item) + 1)) }
    ensures letters { OnOk result (letters.new ≡ with_last letters.old (capital_of item) (last_of letters.old (capital_of item) + 1)) }
    ensures capital { OnOk result ((65 ≤ capital_of item) × (capital_of item ≤ 90)) }
{
    let letter = capital_of(item);
    if letter < b'A' || letter > b'Z' {
        return Err(NoMemory);
    }
    let number = next_number(letters, letter)?;
    name_of(alloc, letter, number)
}

/// The letter of an item: an identifier's own, and X for a negation's own variable.
fn capital_of(item: Variablized) -> u8
    ensures { result ≡ capital_of item }
{
    match item {
        Variablized::Identifier { letter, number: _ } => letter,
        Variablized::Own(_) => b'X',
    }
}

/// The next number of a letter. No rule has so many variables that there is none.
fn next_number(letters: &mut Letters, letter: u8) -> Result<u32, NoMemory>
    requires low { 65 ≤ letter }
    requires high { letter ≤ 90 }
    ensures number { IfOk result (λ number. number ≡ last_of letters.old letter + 1) }
    ensures letters { IfOk result (λ number. letters.new ≡ with_last letters.old letter number) }
{
    let number = letters.last(letter).checked_add(1).ok_or(NoMemory)?;
    letters.starting(letter, number);
    Ok(number)
}

fn name_of(alloc: Global, letter: u8, number: u32) -> Result<Text, NoMemory>
    requires { letter ≤ 90 }
    ensures { IfOk result (λ name. name ≡ (letter + 32) ∷ decimal number) }
{
    let mut name = Text::new(alloc);
    name.push((letter + 32) as char)?;
    let mut buffer = Buffer::new();
    name.push_str(buffer.format(number))?;
    Ok(name)
}
