ghost use Rattle.std.specs.Prelude.{◌≡◌, ◌==◌, ◌<◌, ℕ, false, true, Some, None, OnOk, OnErr, IfOk, if◌then◌else◌};
ghost use Rattle.std.specs.List.{list_any};
ghost use Rattle.slab.specs.Slab.{get};
ghost use Rattle.soar_wm.specs.WorkingMemory.{IsRising, element_of, has_tag, without_tag};
ghost use Rattle.defs_match.specs.Contents.{with_element, HasTag, Works};
ghost use Rattle.rete_alpha.specs.Alphas.{no_patterns, asked_at, IsLive, SamePatterns, Asked, Asks, Releases, Accepts, ArePatterns};
ghost use Rattle.rete_alpha.specs.Members.{HasMembers, SameAsked, asked_slot, IsNumberFor};
ghost use Rattle.rete_alpha.specs.Numbers.{IsIncreasing, with_found, found_numbers};
ghost use Rattle.rete_alpha.specs.Shapes.{number_at};
ghost use Rattle.rete_alpha.specs.Slots.{IsSound};
ghost use Rattle.rete_alpha.specs.Taking.{tags_taken, masks, mask_at};

use crate::elements::Elements;
use crate::numbers::insert_number;
use crate::pattern::{ConstPattern, mask_count};
use crate::requests::{ask_again, ask_first, release_at};
use crate::shapes::PatternNumbers;
use crate::slots::{Slot, forget_all, note_all};
use crate::tags::Tags;
use slab::Slab;
use soar_sym::{List, NoMemory};
use soar_wm::Element;
use std::alloc::Global;
use std::marker::Model;

/// The memories of patterns: for each the tags of the elements that it takes.
///
/// An element finds its patterns by the hashes of at most sixteen masks, and of those alone in whose shape a pattern
/// was ever asked for, however many patterns there are. In each that takes it, a change costs the logarithm of its members.
/// Where a call was refused memory, it tells no contents any more, and each later call that can says that
/// there is no memory.
#[derive(Drop)]
pub struct Alpha {
    numbers: PatternNumbers,
    slots: Slab<Slot>,
    elements: Elements,
    none: Tags,
    failed: bool,
    alloc: Global,
}

impl Model for Alpha {
    ghost use Rattle.rete_alpha.specs.Alphas.{AlphaOf};

    ghost Value = { AlphaOf };

    ghost use Rattle.rete_alpha.specs.Insides.{alpha_view, IsAlpha};

    ghost view = { alpha_view };

    ghost invariant = { IsAlpha };
}

/// One request more for a pattern.
fn ask(
    alloc: Global,
    numbers: &mut PatternNumbers,
    slots: &mut Slab<Slot>,
    elements: &Elements,
    p: &ConstPattern,
) -> Result<usize, NoMemory>
    requires { IsSound (number_at numbers.old) (get slots.old) }
    ensures number { IfOk result (λ n. IsNumberFor (number_at numbers.old p.now) (get slots.old) n) }
    ensures slots { IfOk result (λ n. (k : ℕ) → get slots.new k ≡ (if k == n then Some (asked_slot p.now elements.now (get slots.old k)) else get slots.old k)) }
    ensures sound { OnOk result (IsSound (number_at numbers.new) (get slots.new)) }
{
    if let Some(n) = numbers.get(p) {
        ask_again(slots, n)?;
        return Ok(n);
    }
    let members = elements.tags_taken(alloc, p)?;
    let slot = Slot {
        pattern: *p,
        requests: 1,
        members,
    };
    ask_first(numbers, slots, slot)
}

/// Puts the number of the mask of an element at a place among those found, where it has one.
fn add_found(
    numbers: &PatternNumbers,
    e: &Element,
    place: usize,
    found: &mut List<usize>,
) -> Result<(), NoMemory>
    requires rising { IsIncreasing found.old }
    requires place { place < 16 }
    ensures found { OnOk result (found.new ≡ with_found (number_at numbers.now (mask_at e.now place)) found.old) }
    ensures rising { OnOk result (IsIncreasing found.new) }
{
    if !numbers.has_shape(e, place) {
        return Ok(());
    }
    if let Some(n) = numbers.get_mask(e, place) {
        insert_number(found, n)?;
    }
    Ok(())
}

/// The numbers of those masks of an element that have one, in order.
#[tactic(auto, using(crate::proofs::PlaceLemmas::drop_masks))]
fn numbers_of(alloc: Global, numbers: &PatternNumbers, e: &Element) -> Result<List<usize>, NoMemory>
    ensures { IfOk result (λ found. found ≡ found_numbers (number_at numbers.now) (masks e.now)) }
{
    let mut found = List::new(alloc);
    'places: for place in 0..mask_count(e) {
        add_found(numbers, e, place, &mut found)?;
    }
    Ok(found)
}

/// Takes in an element.
fn note_element(
    numbers: &PatternNumbers,
    slots: &mut Slab<Slot>,
    elements: &mut Elements,
    e: Element,
) -> Result<(), NoMemory>
    requires sound { IsSound (number_at numbers.now) (get slots.old) }
    requires new { list_any (has_tag e.tag) elements.old ≡ false }
    requires members { HasMembers (get slots.old) elements.old }
    ensures elements { OnOk result (elements.new ≡ with_element elements.old e) }
    ensures members { OnOk result (HasMembers (get slots.new) elements.new) }
    ensures asked { OnOk result (SameAsked (get slots.old) (get slots.new)) }
    ensures sound { OnOk result (IsSound (number_at numbers.now) (get slots.new)) }
{
    elements.insert(e)?;
    note_all(numbers, slots, &e, e.tag)?;
    Ok(())
}

/// Takes the element of a tag out.
fn forget_element(
    numbers: &PatternNumbers,
    slots: &mut Slab<Slot>,
    elements: &mut Elements,
    tag: u32,
)
    requires sound { IsSound (number_at numbers.now) (get slots.old) }
    requires there { HasTag elements.old tag }
    requires members { HasMembers (get slots.old) elements.old }
    ensures elements { elements.new ≡ without_tag tag elements.old }
    ensures members { HasMembers (get slots.new) elements.new }
    ensures asked { SameAsked (get slots.old) (get slots.new) }
    ensures sound { IsSound (number_at numbers.now) (get slots.new) }
{
    let Some(e) = elements.remove(tag) else {
        unreachable!();
    };
    forget_all(numbers, slots, &e, tag);
}

impl Alpha {
    /// No patterns and no elements. It takes no memory.
    pub fn new(alloc: Global) -> Result<Alpha, NoMemory>
        ensures { IfOk result (λ a. a ≡ no_patterns) }
    {
        Ok(Alpha {
            numbers: PatternNumbers::new(alloc),
            slots: Slab::new(alloc),
            elements: Elements::new(alloc),
            none: Tags::new(alloc),
            failed: false,
            alloc,
        })
    }

    /// One request more for a pattern, and its number. Equal patterns have one number.
    ///
    /// The first request looks at each element.
    pub fn pattern(&mut self, p: &ConstPattern) -> Result<usize, NoMemory>
        ensures works { OnOk result (Works self.old.failed self.new.failed) }
        ensures asks { IfOk result (Asks self.old self.new p.now) }
        ensures err { OnErr result (self.new.failed ≡ true) }
    {
        if self.failed {
            return Err(NoMemory);
        }
        let asked = ask(
            self.alloc,
            &mut self.numbers,
            &mut self.slots,
            &self.elements,
            p,
        );
        self.failed = asked.is_err();
        asked
    }

    /// Takes one request back. With the last, the number is not live any more, and may be given again.
    pub fn release(&mut self, n: usize)
        requires live { self.old.failed ≡ false → IsLive self.old n }
        ensures works { self.new.failed ≡ self.old.failed }
        ensures releases { self.old.failed ≡ false → Releases self.old self.new n }
    {
        if !self.failed {
            release_at(&mut self.numbers, &mut self.slots, n);
        }
    }

    /// The numbers of the patterns that take an element, in order.
    pub fn accepts(&self, alloc: Global, e: &Element) -> Result<List<usize>, NoMemory>
        ensures works { OnOk result (self.now.failed ≡ false) }
        ensures accepts { IfOk result (Accepts self.now e.now) }
    {
        if self.failed {
            return Err(NoMemory);
        }
        numbers_of(alloc, &self.numbers, e)
    }

    /// Takes in an element whose tag is new.
    pub fn add(&mut self, e: Element) -> Result<(), NoMemory>
        requires new { self.old.failed ≡ false → list_any (has_tag e.tag) self.old.elements ≡ false }
        ensures works { OnOk result (Works self.old.failed self.new.failed) }
        ensures elements { OnOk result (self.new.elements ≡ with_element self.old.elements e) }
        ensures patterns { OnOk result (SamePatterns self.old self.new) }
        ensures err { OnErr result (self.new.failed ≡ true) }
    {
        if self.failed {
            return Err(NoMemory);
        }
        let added = note_element(&self.numbers, &mut self.slots, &mut self.elements, e);
        self.failed = added.is_err();
        added
    }

    /// Takes the element of a tag out. It takes no memory.
    pub fn remove(&mut self, tag: u32)
        requires there { self.old.failed ≡ false → HasTag self.old.elements tag }
        ensures works { self.new.failed ≡ self.old.failed }
        ensures elements { self.old.failed ≡ false → self.new.elements ≡ without_tag tag self.old.elements }
        ensures patterns { self.old.failed ≡ false → SamePatterns self.old self.new }
    {
        if !self.failed {
            forget_element(&self.numbers, &mut self.slots, &mut self.elements, tag);
        }
    }

    /// The members of a pattern: the tags of the elements that it takes, in order. None where memory was refused before.
    pub fn members(&self, n: usize) -> &Tags
        requires live { self.now.failed ≡ false → IsLive self.now n }
        ensures { self.now.failed ≡ false → (asked : Asked) → asked_at self.now n ≡ Some asked → result.now ≡ tags_taken asked.pattern self.now.elements }
    {
        if self.failed {
            return &self.none;
        }
        match self.slots.get(n) {
            Some(slot) => &slot.members,
            None => &self.none,
        }
    }

    /// Returns the element of a tag.
    pub fn element(&self, tag: u32) -> Option<Element>
        ensures found { self.now.failed ≡ false → result ≡ element_of tag self.now.elements }
        ensures silent { self.now.failed ≡ true → result ≡ None }
    {
        if self.failed {
            return None;
        }
        self.elements.get(tag)
    }

    /// Patterns that are live differ, and each has a request; tags rise.
    pub fn law(&self)
        ensures patterns { self.now.failed ≡ false → ArePatterns self.now }
        ensures rising { IsRising self.now.elements }
    {
        self.elements.law();
    }
}
