// An element in 32 bytes.
ghost use Rattle.std.specs.Prelude.{◌≡◌};
ghost use Rattle.soar_wm.specs.Packed.{is_accept, is_of_state};

use crate::element::Element;
use packed_triples::{Kind, kind_of, number_of, symbol_at};
use std::marker::Model;

/// Which of its two marks an element has.
#[derive(Clone, Copy)]
pub enum Marks {
    Neither,
    Accept,
    OfState,
    Both,
}

/// An element in 32 bytes: each symbol is a number with its kind. A slab keeps it as it would keep the element.
#[derive(Drop)]
pub struct PackedElement {
    id: i64,
    attr: i64,
    value: i64,
    tag: u32,
    id_kind: Kind,
    attr_kind: Kind,
    value_kind: Kind,
    marks: Marks,
}

const _: () = prove!(size_of::<PackedElement>() == 32);

impl Model for PackedElement {
    ghost use Rattle.packed_triples.specs.Packed.{symbol_at};
    ghost use Rattle.soar_wm.specs.contracts.element.Element as element;
    ghost use Rattle.soar_wm.specs.declared.element.Element.{Element as ElementOf};
    ghost use Rattle.soar_wm.specs.Packed.{element_with};

    ghost Value = { ElementOf };

    ghost coded = { element.the_row.coded };

    ghost view = { λ p. element_with (symbol_at p.id_kind p.id) (symbol_at p.attr_kind p.attr) (symbol_at p.value_kind p.value) p.tag p.marks };
}

impl PackedElement {
    /// The element, packed.
    pub fn new(element: Element) -> PackedElement
        ensures { result ≡ element }
    {
        PackedElement {
            id: number_of(element.id),
            attr: number_of(element.attr),
            value: number_of(element.value),
            tag: element.tag,
            id_kind: kind_of(element.id),
            attr_kind: kind_of(element.attr),
            value_kind: kind_of(element.value),
            marks: marks_of(element.accept, element.of_state),
        }
    }

    /// The element itself.
    pub fn element(&self) -> Element
        ensures { result ≡ self.now }
    {
        Element {
            id: symbol_at(self.id_kind, self.id),
            attr: symbol_at(self.attr_kind, self.attr),
            value: symbol_at(self.value_kind, self.value),
            tag: self.tag,
            accept: is_accept(self.marks),
            of_state: is_of_state(self.marks),
        }
    }
}

fn marks_of(accept: bool, of_state: bool) -> Marks
    ensures accept { is_accept result ≡ accept }
    ensures of_state { is_of_state result ≡ of_state }
{
    match (accept, of_state) {
        (false, false) => Marks::Neither,
        (true, false) => Marks::Accept,
        (false, true) => Marks::OfState,
        (true, true) => Marks::Both,
    }
}

fn is_accept(marks: Marks) -> bool
    ensures { result ≡ is_accept marks }
{
    match marks {
        Marks::Neither => false,
        Marks::Accept => true,
        Marks::OfState => false,
        Marks::Both => true,
    }
}

fn is_of_state(marks: Marks) -> bool
    ensures { result ≡ is_of_state marks }
{
    match marks {
        Marks::Neither => false,
        Marks::Accept => false,
        Marks::OfState => true,
        Marks::Both => true,
    }
}
