use crate::firing::Firing;
use crate::preference::Wish;
use defs_match::Element;
use soar_sym::List;

/// A step of an explanation.
#[derive(Drop)]
pub enum Step {
    /// A goal's own element.
    Architecture(Element),
    /// An item, and the tag of the marked element that it names.
    Item(Element, u32),
    /// A selected operator, and the tag of its marked element.
    Select(Element, u32),
    Fire(Firing),
}

/// An explanation: the superstate's elements that it rests on, its steps, and what came of it.
#[derive(Drop)]
pub struct Chain {
    pub grounds: List<Element>,
    pub steps: List<Step>,
    pub results: List<Wish>,
}
