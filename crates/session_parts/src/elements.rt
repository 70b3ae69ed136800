// Elements as triples, and by tag.
ghost use Rattle.std.specs.Prelude.{◌≡◌};
ghost use Rattle.soar_sym.specs.Equality.{symbol_eq};
ghost use Rattle.soar_wm.specs.WorkingMemory.{element_of, triple_of};

use soar_sym::{Sym, Triple};
use soar_wm::{Element, Memory};

/// The greatest tag that there can be.
const GREATEST_TAG: u64 = 4_294_967_295;

/// The element of a tag, which may be any number.
pub fn element_of(memory: &Memory, tag: u64) -> Option<Element>
    ensures { result ≡ element_of tag memory.now.elements }
{
    let _last = memory.last_tag();
    let found = memory.get(tag.min(GREATEST_TAG) as u32);
    if tag <= GREATEST_TAG { found } else { None }
}

/// An element without its tag.
pub fn triple_of(element: Element) -> Triple
    ensures { result ≡ triple_of element }
{
    Triple {
        id: element.id,
        attr: element.attr,
        value: element.value,
        accept: element.accept,
    }
}

/// Whether a symbol is the identifier of a letter and a number, which may be beyond the last that there is.
pub fn is_identifier(symbol: Sym, letter: u8, number: u64) -> bool
    ensures symbol { result ≡ symbol_eq symbol (Sym.Ident letter number) }
    ensures turned { result ≡ symbol_eq (Sym.Ident letter number) symbol }
{
    match symbol {
        Sym::Ident {
            letter: own_letter,
            number: own_number,
        } => own_letter == letter && u64::from(own_number) == number,
        _ => false,
    }
}
