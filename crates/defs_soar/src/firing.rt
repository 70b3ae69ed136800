ghost use Rattle.std.specs.Prelude.{◌≡◌, ℕ, List as ListOf, Option as OptionOf, slice_get};
ghost use Rattle.std.specs.Option.{option_copied, option_map};
ghost use Rattle.soar_sym.specs.declared.symbol.Sym.{Sym as SymOf};
ghost use Rattle.defs_soar.specs.Explanation.{firing_of};
ghost use Rattle.defs_soar.specs.History.{FiringOf, firing_seen};

use crate::preference::Wish;
use defs_match::{Element, Instance, Rule};
use soar_sym::{List, Sym, Text};

/// In which way a firing used an element of its instance (Soar manual, chapter 4, backtracing).
#[derive(Clone, Copy, PartialEq, Eq)]
pub enum How {
    /// Its identifier is of a higher level, or the firing is of the top goal.
    Upper,
    /// A goal's own element.
    Architecture,
    /// An item, with the tag of the marked operator element that it names.
    Item(u32),
    /// A selected operator, with the tag of its marked element.
    Selected(u32),
    /// Made by the firing of this number.
    Made(u64),
}

/// An element of an instance, and how it was used.
#[derive(Clone, Copy, PartialEq, Eq)]
pub struct Used {
    pub element: Element,
    pub how: How,
}

/// A firing as it is recorded. `depth` is that of its match goal, and `goals` are the goals among its symbols.
#[derive(Drop)]
pub struct Firing {
    pub number: u64,
    pub name: Sym,
    pub rule: Rule,
    pub depth: u32,
    pub instance: Instance,
    pub goals: List<Sym>,
    pub used: List<Used>,
    pub made: List<Wish>,
}

/// Why an action was dropped.
#[derive(Clone, Copy, PartialEq, Eq)]
pub enum DropCause {
    /// A result outside 64 bits.
    Overflow,
    /// A divisor of 0.
    ZeroDivisor,
    /// A function that needs an integer has something else.
    NotANumber,
    /// A word of more than 1 MiB.
    TooLong,
    /// The identifier is a constant.
    NotAnIdentifier,
    /// A preference that operators alone have, for something else, or with something else than an operator.
    NotAnOperator,
    /// A number beyond 1,000,000,000 in a numeric preference.
    OutOfRange,
}

/// A dropped action, by its place among the rule's actions from 1.
#[derive(Clone, Copy, PartialEq, Eq)]
pub struct Dropped {
    pub action: u32,
    pub cause: DropCause,
}

/// What a firing makes: preferences, a text, whether it halts the agent, and what was dropped.
#[derive(Drop)]
pub struct Made {
    pub wishes: List<Wish>,
    pub texts: Text,
    pub halted: bool,
    pub dropped: List<Dropped>,
}

/// Firings by number.
pub trait Keeps {
    /// The firings that are kept.
    ghost kept: { Self → ListOf FiringOf };

    /// The first firing of a number, where one is kept.
    fn firing(&self, number: u64) -> Option<&Firing>
        ensures { option_map firing_seen (option_copied result) ≡ slice_get (firing_of (kept self.now) number) 0 };
}

/// Identifiers by level.
pub trait Leveled {
    /// The level that is told of a symbol.
    ghost told: { Self → SymOf → OptionOf ℕ };

    /// The level of an identifier, where some goal reaches it.
    fn level_of(&self, id: Sym) -> Option<u32>
        ensures { result ≡ told self.now id };
}
