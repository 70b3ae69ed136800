// What is known: triples of elements, and what preferences hold up.
ghost use Rattle.std.specs.Prelude.{◌≡◌};
ghost use Rattle.std.specs.List.{list_any};
ghost use Rattle.learning_laws.specs.Replay as meaning;
ghost use Rattle.soar_wm.specs.WorkingMemory as memory;

use defs_soar::{PrefKind, Wish};
use soar_sym::architecture::OPERATOR;
use soar_sym::{Triple, is_symbol};
use soar_wm::Element;

/// Whether one of the elements has the tag.
pub fn has_tag(elements: &[Element], tag: u32) -> bool
    ensures { result ≡ list_any (memory.has_tag tag) elements.now }
{
    'elements: for element in elements {
        if element.tag == tag {
            return true;
        }
    }
    false
}

/// Whether the element's triple is that of one of these, or a preference makes it.
pub fn is_known(rows: &[Element], made: &[Wish], element: Element) -> bool
    ensures { result ≡ meaning.is_known rows.now made.now element }
{
    let triple = Triple {
        id: element.id,
        attr: element.attr,
        value: element.value,
        accept: element.accept,
    };
    has_triple(rows, triple) || is_made(made, element)
}

fn has_triple(elements: &[Element], triple: Triple) -> bool
    ensures { result ≡ list_any (memory.has_triple triple) elements.now }
{
    'elements: for element in elements {
        if is_of_triple(element, triple) {
            return true;
        }
    }
    false
}

fn is_of_triple(element: &Element, triple: Triple) -> bool
    ensures { result ≡ memory.has_triple triple element.now }
{
    is_symbol(element.id, triple.id)
        && is_symbol(element.attr, triple.attr)
        && is_symbol(element.value, triple.value)
        && element.accept == triple.accept
}

fn is_made(made: &[Wish], element: Element) -> bool
    ensures { result ≡ list_any (meaning.wish_makes element) made.now }
{
    'wishes: for wish in made {
        if makes(wish, element) {
            return true;
        }
    }
    false
}

/// An acceptable or require preference for the element's triple. It has it marked exactly where it is for the operator
/// of a goal.
fn makes(wish: &Wish, element: Element) -> bool
    ensures { result ≡ meaning.wish_makes element wish.now }
{
    (wish.kind.is(PrefKind::Accept) || wish.kind.is(PrefKind::Require))
        && is_symbol(wish.id, element.id)
        && is_symbol(wish.attr, element.attr)
        && is_symbol(wish.value, element.value)
        && element.accept == is_operator_of_goal(element)
}

fn is_operator_of_goal(element: Element) -> bool
    ensures { result ≡ meaning.is_operator_of_goal element }
{
    is_symbol(element.attr, OPERATOR) && element.of_state
}
