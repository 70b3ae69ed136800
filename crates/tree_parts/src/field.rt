use soar_sym::{List, Sym};

/// A word and whether it stands bare, or an integer.
#[derive(Clone, Copy)]
pub enum Constant {
    Named(Sym, bool),
    Number(i64),
}

/// A variable, by the word of its name, or a constant.
#[derive(Clone, Copy)]
pub enum Single {
    Variable(Sym),
    Constant(Constant),
}

/// `<< a b >>`: one constant or more.
#[derive(Drop)]
pub struct Alternatives {
    pub first: Constant,
    pub others: List<Constant>,
}

/// A variable or a constant behind the sign of a relation, by its place among the signs, or behind none.
#[derive(Clone, Copy)]
pub struct Tested {
    pub relation: Option<u8>,
    pub single: Single,
}

/// One test of a field.
#[derive(Drop)]
pub enum Simple {
    OneOf(Alternatives),
    Tested(Tested),
}

/// `{ a b }`: one test or more.
#[derive(Drop)]
pub struct Braced {
    pub first: Simple,
    pub others: List<Simple>,
}

/// What stands in the place of an identifier, an attribute or a value.
#[derive(Drop)]
pub enum FieldTree {
    Braced(Braced),
    Single(Simple),
}
