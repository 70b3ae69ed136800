// Elements that a matcher takes in.
ghost use Rattle.std.specs.Prelude.{◌≡◌, false, [], OnOk, List as ListOf};
ghost use Rattle.defs_soar.specs.Start.{first_elements};
ghost use Rattle.live_firings.specs.declared.live.Live.{Live as LiveOf};
ghost use Rattle.matching_laws.specs.Telling.{AreInsertable, with_each};

use outstanding::Outstanding;
use soar_sym::{NoMemory, Sym};
use soar_wm::Element;

/// The elements of the start, by tag: the input and output links, and the top state (Soar manual, chapter 2).
const FIRST: [Element; 5] = [
    Element {
        tag: 1,
        id: IO,
        attr: Sym::Word(3),
        value: Sym::Ident {
            letter: b'I',
            number: 2,
        },
        accept: false,
        of_state: false,
    },
    Element {
        tag: 2,
        id: IO,
        attr: Sym::Word(4),
        value: Sym::Ident {
            letter: b'I',
            number: 3,
        },
        accept: false,
        of_state: false,
    },
    Element {
        tag: 3,
        id: TOP,
        attr: Sym::Word(2),
        value: IO,
        accept: false,
        of_state: true,
    },
    Element {
        tag: 4,
        id: TOP,
        attr: Sym::Word(5),
        value: Sym::Word(1),
        accept: false,
        of_state: true,
    },
    Element {
        tag: 5,
        id: TOP,
        attr: Sym::Word(6),
        value: Sym::Word(0),
        accept: false,
        of_state: true,
    },
];

const TOP: Sym = Sym::Ident {
    letter: b'S',
    number: 1,
};

const IO: Sym = Sym::Ident {
    letter: b'I',
    number: 1,
};

/// Takes elements in, in turn.
pub fn take_in<M: Outstanding>(matcher: &mut M, elements: &[Element]) -> Result<(), NoMemory>
    requires works { M.failed matcher.old ≡ false }
    requires insertable { AreInsertable (M.elements matcher.old) elements.now }
    ensures works { OnOk result (M.failed matcher.new ≡ false) }
    ensures rules { OnOk result (M.rules matcher.new ≡ M.rules matcher.old) }
    ensures elements { OnOk result (M.elements matcher.new ≡ with_each (M.elements matcher.old) elements.now) }
    ensures knows { OnOk result ((live : ListOf LiveOf) → M.knows matcher.old live → M.knows matcher.new live) }
{
    'elements: for element in elements {
        matcher.element_comes(*element)?;
    }
    Ok(())
}

/// Takes in the elements of the start, before there are any.
pub fn take_first<M: Outstanding>(matcher: &mut M) -> Result<(), NoMemory>
    requires works { M.failed matcher.old ≡ false }
    requires none { M.elements matcher.old ≡ [] }
    ensures works { OnOk result (M.failed matcher.new ≡ false) }
    ensures rules { OnOk result (M.rules matcher.new ≡ M.rules matcher.old) }
    ensures elements { OnOk result (M.elements matcher.new ≡ first_elements) }
    ensures knows { OnOk result ((live : ListOf LiveOf) → M.knows matcher.old live → M.knows matcher.new live) }
{
    take_in(matcher, &FIRST)?;
    Ok(())
}
