//! The words that the architecture knows, which stand first in each table.

use crate::symbol::Sym;

/// Their texts, in order.
pub(crate) const TEXTS: [&str; 24] = [
    "state",
    "nil",
    "io",
    "input-link",
    "output-link",
    "superstate",
    "type",
    "operator",
    "name",
    "impasse",
    "choices",
    "attribute",
    "quiescence",
    "t",
    "item",
    "item-count",
    "non-numeric",
    "non-numeric-count",
    "tie",
    "conflict",
    "constraint-failure",
    "no-change",
    "multiple",
    "none",
];

pub const STATE: Sym = Sym::Word(0);

pub const NIL: Sym = Sym::Word(1);

pub const IO: Sym = Sym::Word(2);

pub const INPUT_LINK: Sym = Sym::Word(3);

pub const OUTPUT_LINK: Sym = Sym::Word(4);

pub const SUPERSTATE: Sym = Sym::Word(5);

pub const TYPE: Sym = Sym::Word(6);

pub const OPERATOR: Sym = Sym::Word(7);

pub const NAME: Sym = Sym::Word(8);

pub const IMPASSE: Sym = Sym::Word(9);

pub const CHOICES: Sym = Sym::Word(10);

pub const ATTRIBUTE: Sym = Sym::Word(11);

pub const QUIESCENCE: Sym = Sym::Word(12);

pub const T: Sym = Sym::Word(13);

pub const ITEM: Sym = Sym::Word(14);

pub const ITEM_COUNT: Sym = Sym::Word(15);

pub const NON_NUMERIC: Sym = Sym::Word(16);

pub const NON_NUMERIC_COUNT: Sym = Sym::Word(17);

pub const TIE: Sym = Sym::Word(18);

pub const CONFLICT: Sym = Sym::Word(19);

pub const CONSTRAINT_FAILURE: Sym = Sym::Word(20);

pub const NO_CHANGE: Sym = Sym::Word(21);

pub const MULTIPLE: Sym = Sym::Word(22);

pub const NONE: Sym = Sym::Word(23);
