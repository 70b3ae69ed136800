use crate::field::Single;
use soar_rule::Func;
use soar_sym::{List, Sym};

/// A value in an action: a variable, a constant, or a call with its values.
#[derive(Drop)]
pub enum Term {
    Single(Single),
    Call(Func, List<Term>),
}

/// `>`, `<` or `=`, by its place among the signs, with a referent or without.
#[derive(Drop)]
pub struct Compared {
    pub sign: u8,
    pub referent: Option<Term>,
}

/// `+`, `-`, `!`, `~`, or a preference that compares.
#[derive(Drop)]
pub enum WishTree {
    Accepting,
    Rejecting,
    Requiring,
    Prohibiting,
    Comparing(Compared),
}

/// A value with its preferences.
#[derive(Drop)]
pub struct ItemTree {
    pub value: Term,
    pub wishes: List<WishTree>,
}

/// `^attribute.path item items`
#[derive(Drop)]
pub struct AttributeMake {
    pub attribute: Term,
    pub path: List<Term>,
    pub item: ItemTree,
    pub items: List<ItemTree>,
}

/// What is made of one identifier, by the word of its variable.
#[derive(Drop)]
pub struct MakeTree {
    pub variable: Sym,
    pub make: AttributeMake,
    pub makes: List<AttributeMake>,
}

/// An action.
#[derive(Drop)]
pub enum ActionTree {
    Making(MakeTree),
    Writing(List<Term>),
    Halting,
}
