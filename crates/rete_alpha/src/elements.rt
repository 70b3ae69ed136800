// The elements of working memory, by tag.
ghost use Rattle.std.specs.Prelude.{◌≡◌, false, [], OnOk, OnErr, IfOk};
ghost use Rattle.std.specs.List.{list_any};
ghost use Rattle.std.specs.Option.{option_copied};
ghost use Rattle.defs_match.specs.Contents.{with_element};
ghost use Rattle.soar_wm.specs.WorkingMemory.{IsRising, element_of, has_tag, without_tag};
ghost use Rattle.rete_alpha.specs.Numbers.{with_numbers};
ghost use Rattle.rete_alpha.specs.Taking.{keys_taken, tags_taken};

use crate::pattern::{ConstPattern, takes};
use crate::tags::Tags;
use soar_sym::NoMemory;
use soar_wm::{Element, PackedElement};
use std::alloc::Global;
use std::collections::HashMap;
use std::marker::Model;

/// Elements by tag. What a change or a look-up costs does not grow with their number, but when the table itself grows.
#[derive(Drop)]
pub struct Elements {
    by_tag: HashMap<u32, PackedElement>,
}

impl Model for Elements {
    ghost use Rattle.std.specs.Prelude.{List as ListOf};
    ghost use Rattle.std.specs.Map.{values_of};
    ghost use Rattle.soar_wm.specs.declared.element.Element.{Element as ElementOf};
    ghost use Rattle.rete_alpha.specs.Entries.{OwnTags, in_order};

    ghost Value = { ListOf ElementOf };

    ghost view = { λ a. values_of (in_order a.by_tag.entries) };

    ghost invariant = { λ a. OwnTags (in_order a.by_tag.entries) };
}

impl Elements {
    /// No elements. It takes no memory.
    pub fn new(alloc: Global) -> Elements
        ensures { result ≡ [] }
    {
        Elements {
            by_tag: HashMap::new(alloc),
        }
    }

    /// Puts an element at the place of its tag. Want of memory changes nothing.
    pub fn insert(&mut self, e: Element) -> Result<(), NoMemory>
        requires { list_any (has_tag e.tag) self.old ≡ false }
        ensures ok { OnOk result (self.new ≡ with_element self.old e) }
        ensures err { OnErr result (self.new ≡ self.old) }
        ensures rising { OnOk result (IsRising self.old) }
    {
        self.by_tag.insert(e.tag, PackedElement::new(e))?;
        Ok(())
    }

    /// Takes the element of a tag away, and answers it.
    pub fn remove(&mut self, tag: u32) -> Option<Element>
        ensures removed { result ≡ element_of tag self.old }
        ensures rest { self.new ≡ without_tag tag self.old }
        ensures rising { IsRising self.old }
    {
        let gone = self.by_tag.remove(&tag);
        unpacked(gone.as_ref())
    }

    /// The element of a tag.
    pub fn get(&self, tag: u32) -> Option<Element>
        ensures { result ≡ element_of tag self.now }
    {
        unpacked(self.by_tag.get(&tag))
    }

    /// Tags rise.
    pub fn law(&self)
        ensures { IsRising self.now }
    {
        let _count = self.by_tag.len();
    }

    /// The tags of the elements that a pattern takes, in order. It looks at each element.
    pub fn tags_taken(&self, alloc: Global, p: &ConstPattern) -> Result<Tags, NoMemory>
        ensures tags { IfOk result (λ tags. tags ≡ tags_taken p.now self.now) }
        ensures rising { OnOk result (IsRising self.now) }
    {
        let _count = self.by_tag.len();
        keys_taken(alloc, &self.by_tag, p)
    }
}

/// The element itself, where there is one.
fn unpacked(packed: Option<&PackedElement>) -> Option<Element>
    ensures { result ≡ option_copied packed.entry }
{
    match packed {
        Some(packed) => Some(packed.element()),
        None => None,
    }
}

/// The tags under which a map has the elements that a pattern takes, each put at its place.
fn keys_taken(
    alloc: Global,
    by_tag: &HashMap<u32, PackedElement>,
    p: &ConstPattern,
) -> Result<Tags, NoMemory>
    ensures { IfOk result (λ tags. tags ≡ with_numbers (keys_taken p.now by_tag.now.entries) []) }
{
    let mut tags = Tags::new(alloc);
    'elements: for (tag, element) in by_tag.iter() {
        if takes(p, &element.element()) {
            tags.insert(*tag)?;
        }
    }
    Ok(tags)
}
