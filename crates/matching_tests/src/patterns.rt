ghost use Rattle.std.specs.Prelude.{◌≡◌};
ghost use Rattle.soar_sym.specs.declared.symbol.Sym.TheVariants.{Word};
ghost use Rattle.defs_match.specs.Worked.{of_top};

use rete_alpha::{Alpha, ConstPattern};
use soar_sym::{NoMemory, Sym};
use soar_wm::Element;
use std::alloc::Global;
use std::test::Fail;

/// A digit is the number of an identifier, and a letter a word.
fn symbol(byte: u8) -> Sym {
    if byte.is_ascii_digit() {
        Sym::Ident {
            letter: b'S',
            number: u32::from(byte),
        }
    } else {
        Sym::Word(u32::from(byte))
    }
}

/// `*` stands for any symbol.
fn asked(byte: u8) -> Option<Sym> {
    if byte == b'*' {
        None
    } else {
        Some(symbol(byte))
    }
}

fn pattern(row: [u8; 5]) -> ConstPattern {
    let [flag, id, attr, value, mark] = row;
    ConstPattern {
        state: flag == b's',
        id: asked(id),
        attr: asked(attr),
        value: asked(value),
        accept: mark == b'+',
    }
}

fn element(tag: u32, row: [u8; 5]) -> Element {
    let [flag, id, attr, value, mark] = row;
    Element {
        tag,
        id: symbol(id),
        attr: symbol(attr),
        value: symbol(value),
        accept: mark == b'+',
        of_state: flag == b's',
    }
}

/// Whether a pattern takes an element.
fn takes(alloc: Global, p: [u8; 5], e: [u8; 5]) -> Result<bool, NoMemory> {
    let mut alpha = Alpha::new(alloc)?;
    alpha.pattern(&pattern(p))?;
    let numbers = alpha.accepts(alloc, &element(6, e))?;
    Ok(!numbers.is_empty())
}

#[test]
fn an_element_has_what_its_pattern_asks_for(rt: HostRuntime) -> Result<(), Fail> {
    for (p, e, wanted) in [
        (*b".***-", *b"s1ab-", true),
        (*b".***+", *b"s1ab-", false),
        (*b".***-", *b".1ab+", false),
        (*b"s***-", *b"s1ab-", true),
        (*b"s***-", *b".1ab-", false),
        (*b".1*b-", *b".1ab-", true),
        (*b".2*b-", *b".1ab-", false),
        (*b"s*aa+", *b"s1ab+", false),
        (*b"s1ab+", *b"s1ab+", true),
    ] {
        assert!(rt; takes(rt.alloc(), p, e)? == wanted);
    }
    Ok(())
}

fn top(tag: u32, attr: u32) -> Element
    ensures { result ≡ of_top tag attr (Word 1) }
{
    Element {
        tag,
        id: Sym::Ident {
            letter: b'S',
            number: 1,
        },
        attr: Sym::Word(attr),
        value: Sym::Word(1),
        accept: false,
        of_state: true,
    }
}

/// Whether a pattern finds the element that is there, and nobody asks for it at the end.
fn comes_and_goes(alloc: Global) -> Result<bool, NoMemory> {
    let mut alpha = Alpha::new(alloc)?;
    alpha.add(top(6, u32::from(b'a')))?;
    let n = alpha.pattern(&pattern(*b".*a*-"))?;
    let there = alpha.members(n).iter().eq(&[6]);
    alpha.release(n);
    alpha.remove(6);
    let numbers = alpha.accepts(alloc, &top(7, u32::from(b'a')))?;
    Ok(there && numbers.is_empty())
}

#[test]
fn members_are_there_when_asked_for(rt: HostRuntime) -> Result<(), Fail> {
    assert!(rt; comes_and_goes(rt.alloc())?);
    Ok(())
}
