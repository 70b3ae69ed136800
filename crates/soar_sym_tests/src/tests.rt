ghost use Rattle.std.specs.Prelude.{◌≤◌, IsTrue};
ghost use Rattle.soar_sym.specs.Words.{IsKnown};

use soar_sym::architecture::{
    ATTRIBUTE, CHOICES, CONFLICT, CONSTRAINT_FAILURE, IMPASSE, INPUT_LINK, IO, ITEM, ITEM_COUNT,
    MULTIPLE, NAME, NIL, NO_CHANGE, NON_NUMERIC, NON_NUMERIC_COUNT, NONE, OPERATOR, OUTPUT_LINK,
    QUIESCENCE, STATE, SUPERSTATE, T, TIE, TYPE,
};
use soar_sym::{
    Letters, List, NoMemory, Same, Sym, SymTable, Text, Triple, Twin, is_identifier, is_symbol,
    is_triple,
};
use std::alloc::Global;
use std::cmp::Ordering;
use std::test::Fail;

const CONSTANTS: &[Sym] = &[
    STATE,
    NIL,
    IO,
    INPUT_LINK,
    OUTPUT_LINK,
    SUPERSTATE,
    TYPE,
    OPERATOR,
    NAME,
    IMPASSE,
    CHOICES,
    ATTRIBUTE,
    QUIESCENCE,
    T,
    ITEM,
    ITEM_COUNT,
    NON_NUMERIC,
    NON_NUMERIC_COUNT,
    TIE,
    CONFLICT,
    CONSTRAINT_FAILURE,
    NO_CHANGE,
    MULTIPLE,
    NONE,
];

const TEXTS: &[&str] = &[
    "state",
    "nil",
    "io",
    "input-link",
    "output-link",
    "superstate",
    "type",
    "operator",
    "name",
    "impasse",
    "choices",
    "attribute",
    "quiescence",
    "t",
    "item",
    "item-count",
    "non-numeric",
    "non-numeric-count",
    "tie",
    "conflict",
    "constraint-failure",
    "no-change",
    "multiple",
    "none",
];

/// Whether a text gets this word, and the word has this text.
fn has_word(table: &mut SymTable, text: &str, word: u32) -> bool {
    match table.intern(text) {
        Ok(Sym::Word(at)) => at == word && table.text(at) == text,
        _ => false,
    }
}

/// Whether the texts of a list get the words from a first one on.
fn have_words(table: &mut SymTable, texts: &[&str], first: u32) -> bool {
    let mut word = first;
    for text in texts {
        if !has_word(table, *text, word) {
            return false;
        }
        word = word.wrapping_add(1);
    }
    true
}

#[test]
fn words_are_numbered_in_the_order_of_reading(rt: HostRuntime) -> Result<(), Fail> {
    let mut table = SymTable::new(rt.alloc())?;
    let new = ["red", "blue", "", "Red"];
    assert!(rt;
        have_words(&mut table, &new, 24)
            && have_words(&mut table, &new, 24)
            && table.word_count() == 28
    );
    Ok(())
}

#[test]
fn constants_are_the_words_of_their_texts(rt: HostRuntime) -> Result<(), Fail> {
    let mut table = SymTable::new(rt.alloc())?;
    assert!(rt; have_words(&mut table, TEXTS, 0) && are_in_order(CONSTANTS));
    Ok(())
}

/// Whether these are the first words, in order.
fn are_in_order(words: &[Sym]) -> bool {
    let mut at = 0;
    for word in words {
        if !is_symbol(*word, Sym::Word(at)) {
            return false;
        }
        at = at.wrapping_add(1);
    }
    true
}

/// Whether a list rises in the table's order.
fn rises(table: &SymTable, symbols: &[Sym]) -> bool {
    for at in 1..symbols.len() {
        if !is_less(table, symbols[at - 1], symbols[at]) {
            return false;
        }
    }
    true
}

fn is_less(table: &SymTable, less: Sym, more: Sym) -> bool {
    if !is_known(table, less) || !is_known(table, more) {
        return false;
    }
    table.compare(less, more) == Ordering::Less
        && table.compare(more, less) == Ordering::Greater
        && table.compare(less, less) == Ordering::Equal
}

fn is_known(table: &SymTable, symbol: Sym) -> bool
    ensures { IsTrue result → IsKnown table.now symbol }
{
    match symbol {
        Sym::Ident { letter, .. } => 65 <= letter && letter <= 90,
        Sym::Word(word) => word < table.word_count(),
        Sym::Int(_) => true,
    }
}

/// By letter and number, then by value, then by text: the words are red, blue and the empty one.
const RISING: &[Sym] = &[
    Sym::Ident {
        letter: b'A',
        number: 4_294_967_295,
    },
    Sym::Ident {
        letter: b'S',
        number: 2,
    },
    Sym::Ident {
        letter: b'S',
        number: 10,
    },
    Sym::Ident {
        letter: b'Z',
        number: 4_294_967_295,
    },
    Sym::Int(-9_223_372_036_854_775_808),
    Sym::Int(9_223_372_036_854_775_807),
    Sym::Word(26),
    Sym::Word(25),
    Sym::Word(24),
];

#[test]
fn symbols_go_by_kind_and_then_by_what_they_are(rt: HostRuntime) -> Result<(), Fail> {
    let mut table = SymTable::new(rt.alloc())?;
    assert!(rt; have_words(&mut table, &["red", "blue", ""], 24) && rises(&table, RISING));
    Ok(())
}

#[test]
fn symbols_and_triples_are_told_apart(rt: HostRuntime) {
    assert!(rt; are_one_each(RISING) && are_triples_told_apart());
}

/// Whether each is itself and none of those behind it.
fn are_one_each(symbols: &[Sym]) -> bool {
    for at in 0..symbols.len() {
        if !is_alone(symbols[at], &symbols[at + 1..]) {
            return false;
        }
    }
    true
}

fn is_alone(symbol: Sym, others: &[Sym]) -> bool {
    for other in others {
        if is_symbol(symbol, *other) {
            return false;
        }
    }
    is_symbol(symbol, symbol)
}

fn are_triples_told_apart() -> bool {
    let triple = Triple {
        id: Sym::Ident {
            letter: b'S',
            number: 1,
        },
        attr: NAME,
        value: NONE,
        accept: false,
    };
    let marked = Triple {
        accept: true,
        ..triple
    };
    is_identifier(triple.id)
        && !is_identifier(NAME)
        && is_triple(triple, triple)
        && !is_triple(triple, marked)
        && triple < marked
}

#[test]
fn letters_go_to_their_last_number(rt: HostRuntime) {
    let mut letters = Letters::new();
    assert!(rt;
        goes_to_its_last(&mut letters, b'A')
            && goes_to_its_last(&mut letters, b'Z')
            && letters.last(b'B') == 0
            && letters.last(b'Y') == 0
    );
}

fn goes_to_its_last(letters: &mut Letters, letter: u8) -> bool
    requires low { 65 ≤ letter }
    requires high { letter ≤ 90 }
{
    if !is_next(letters, letter, 1) || !is_next(letters, letter, 2) {
        return false;
    }
    letters.starting(letter, 4_294_967_294);
    is_next(letters, letter, 4_294_967_295)
        && letters.next(letter).is_err()
        && letters.last(letter) == 4_294_967_295
}

fn is_next(letters: &mut Letters, letter: u8, number: u32) -> bool
    requires low { 65 ≤ letter }
    requires high { letter ≤ 90 }
{
    match letters.next(letter) {
        Ok(symbol) => is_symbol(symbol, Sym::Ident { letter, number }),
        Err(_) => false,
    }
}

#[test]
fn lists_and_texts_are_copied(rt: HostRuntime) -> Result<(), Fail> {
    assert!(rt; is_list_copied(rt.alloc())? && is_text_copied(rt.alloc())?);
    Ok(())
}

fn is_list_copied(alloc: Global) -> Result<bool, NoMemory> {
    let mut list = List::from_slice(alloc, b"ab")?;
    list.push(b'c')?;
    list.extend_from_slice(b"de")?;
    let twin = list.twin(alloc)?;
    Ok(twin.same(&list) && list.clone()? == list && list.as_slice() == b"abcde".as_slice())
}

fn is_text_copied(alloc: Global) -> Result<bool, NoMemory> {
    let mut text = Text::from_str(alloc, "a")?;
    text.push('é')?;
    text.push_str("cd")?;
    let twin = text.twin(text.allocator())?;
    Ok(
        twin.same(&text)
            && text.len() == 5
            && Text::from_string(text.into_string()).as_str() == "aécd",
    )
}

#[test]
fn a_list_changes_at_its_places(rt: HostRuntime) -> Result<(), Fail> {
    let mut list = List::from_vec(Vec::from_slice(rt.alloc(), b"abc")?);
    let mut text = Text::new(rt.alloc());
    assert!(rt; is_changed(&mut list) && list.into_vec().is_empty() && text.push('é').is_ok());
    Ok(())
}

/// Takes `abc` away, with another byte in its midst.
fn is_changed(list: &mut List<u8>) -> bool {
    if list.len() != 3 {
        return false;
    }
    list.set(1, b'x');
    list.remove(0) == b'a'
        && list.get(0) == Some(&b'x')
        && list.get(2).is_none()
        && list.pop() == Some(b'c')
        && list.pop() == Some(b'x')
        && list.pop().is_none()
        && list.is_empty()
}
