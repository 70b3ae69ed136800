// The numbers of patterns. A pattern is sought only where one of its shape was ever put in.
ghost use Rattle.std.specs.Prelude.{◌≡◌, ◌≤◌, ◌<◌, [], Some, None, OnOk, OnErr, false, if◌then◌else◌};
ghost use Rattle.rete_alpha.specs.Shapes.{PatternOf, number_at, shape, weight};
ghost use Rattle.rete_alpha.specs.Slots.{pattern_eq};
ghost use Rattle.rete_alpha.specs.Taking.{mask_at};

use crate::pattern::{ConstPattern, mask_at};
use soar_sym::NoMemory;
use soar_wm::Element;
use std::alloc::Global;
use std::collections::HashMap;
use std::marker::Model;

/// The weight of a part in the place of a shape.
fn weight(part: usize, here: bool) -> usize
    ensures value { result ≡ weight part here }
    ensures bound { result ≤ part }
{
    if here { part } else { 0 }
}

/// The place of a pattern's shape: which of its fields are constants, and its marks.
fn shape(p: &ConstPattern) -> usize
    ensures value { result ≡ shape p.now }
    ensures bound { result < 32 }
{
    weight(16, p.accept)
        + weight(8, p.state)
        + weight(4, p.id.is_some())
        + weight(2, p.attr.is_some())
        + weight(1, p.value.is_some())
}

/// The numbers of patterns, and in which shapes one was ever put in: that is not taken back as patterns go.
#[derive(Drop)]
pub struct PatternNumbers {
    by_pattern: HashMap<ConstPattern, usize>,
    shapes: [bool; 32],
}

impl Model for PatternNumbers {
    ghost use Rattle.rete_alpha.specs.Shapes.{NumbersOf, number_at, IsShaped};

    ghost Value = { NumbersOf };

    ghost view = { λ a. a.by_pattern.entries };

    ghost invariant = { λ a. IsShaped (number_at a.by_pattern.entries) a.shapes };
}

impl PatternNumbers {
    /// No pattern has a number. It takes no memory.
    pub fn new(alloc: Global) -> PatternNumbers
        ensures { result ≡ [] }
    {
        PatternNumbers {
            by_pattern: HashMap::new(alloc),
            shapes: [false; 32],
        }
    }

    /// The number of a pattern.
    pub fn get(&self, p: &ConstPattern) -> Option<usize>
        ensures { result ≡ number_at self.now p.now }
    {
        let at = shape(p);
        if self.shapes[at] {
            self.by_pattern.get(p).copied()
        } else {
            None
        }
    }

    /// Whether a pattern was ever put in of the shape that the mask of an element at a place has. It makes no mask.
    pub fn has_shape(&self, e: &Element, place: usize) -> bool
        requires { place < 16 }
        ensures { result ≡ false → number_at self.now (mask_at e.now place) ≡ None }
    {
        self.shapes[weight(16, e.accept) + place]
    }

    /// The number of the mask of an element at a place. What asks `has_shape` before makes and seeks few masks.
    pub fn get_mask(&self, e: &Element, place: usize) -> Option<usize>
        ensures { result ≡ number_at self.now (mask_at e.now place) }
    {
        self.by_pattern.get(&mask_at(e, place)).copied()
    }

    /// Gives a pattern a number. Want of memory changes nothing.
    pub fn insert(&mut self, p: ConstPattern, n: usize) -> Result<(), NoMemory>
        ensures ok { OnOk result ((q : PatternOf) → number_at self.new q ≡ (if pattern_eq p q then Some n else number_at self.old q)) }
        ensures err { OnErr result (self.new ≡ self.old) }
    {
        let at = shape(&p);
        self.by_pattern.insert(p, n)?;
        self.shapes[at] = true;
        Ok(())
    }

    /// Takes the number of a pattern away.
    pub fn remove(&mut self, p: &ConstPattern)
        ensures { (q : PatternOf) → number_at self.new q ≡ (if pattern_eq p.now q then None else number_at self.old q) }
    {
        self.by_pattern.remove(p);
    }
}
