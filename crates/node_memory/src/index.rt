// The elements of working memory by identifier, attribute and value.
ghost use Rattle.std.specs.Prelude.{◌≡◌, ◌↔◌, ◌⊎◌, ◌≢◌, [], false, Some, filter, OnOk, OnErr, IfOk};
ghost use Rattle.std.specs.List.{list_any};
ghost use Rattle.soar_wm.specs.WorkingMemory.{has_tag};
ghost use Rattle.std.specs.BTreeMap.{IsOrdered};
ghost use Rattle.defs_match.specs.Laws.{IsIn};
ghost use Rattle.soar_wm.specs.declared.element.Element.{Element as ElementOf};
ghost use Rattle.node_memory.specs.Entries.{marks_of, element_at, elements_in};
ghost use Rattle.node_memory.specs.Keys.{key_cmp, key_of, is_other, value_beside, meets, key_meets, entries_from, or_least, least_key};
ghost use Rattle.node_memory.specs.Runs.{front_while};

use crate::key::PackedKey;
use soar_sym::{NoMemory, Sym, is_symbol};
use soar_wm::Element;
use std::alloc::Global;
use std::collections::BTreeMap;
use std::marker::Model;

/// What an element has beside its key: whether it is marked as an acceptable operator, and whether its identifier is a state.
#[derive(Clone, Copy)]
pub struct Marks {
    pub accept: bool,
    pub of_state: bool,
}

/// The elements of working memory by identifier, attribute and value. What one change costs grows with the logarithm of their number,
/// and what a look-up costs with that and what it finds.
#[derive(Drop)]
pub struct ElementIndex {
    by_key: BTreeMap<PackedKey, Marks>,
}

impl Model for ElementIndex {
    ghost use Rattle.std.specs.Prelude.{List as ListOf};
    ghost use Rattle.soar_wm.specs.declared.element.Element.{Element as ElementOf};
    ghost use Rattle.node_memory.specs.Entries.{elements_in};

    ghost Value = { ListOf ElementOf };

    ghost view = { λ a. elements_in a.by_key.entries };
}

/// The key of an element.
fn key_of(e: &Element) -> PackedKey
    ensures { result ≡ key_of e.now }
{
    PackedKey::new(e.id, e.attr, e.value, e.tag)
}

/// What an element has beside its key.
fn marks_of(e: &Element) -> Marks
    ensures { result ≡ marks_of e.now }
{
    Marks {
        accept: e.accept,
        of_state: e.of_state,
    }
}

/// The element of a key.
fn element_at(key: &PackedKey, marks: &Marks) -> Element
    ensures { result ≡ element_at (key.now, marks.now) }
{
    let key = key.key();
    Element {
        tag: key.tag,
        id: key.id,
        attr: key.attr,
        value: key.value,
        accept: marks.accept,
        of_state: marks.of_state,
    }
}

/// Copies of the elements of a map.
fn copy_all(alloc: Global, by_key: &BTreeMap<PackedKey, Marks>) -> Result<Vec<Element>, NoMemory>
    ensures { IfOk result (λ v. v.items ≡ elements_in by_key.now.entries) }
{
    let mut out = Vec::new(alloc);
    'elements: for (key, marks) in by_key.iter() {
        out.push(element_at(key, marks))?;
    }
    Ok(out)
}

impl ElementIndex {
    /// No elements. It takes no memory.
    pub fn new(alloc: Global) -> ElementIndex
        ensures { result ≡ [] }
    {
        ElementIndex {
            by_key: BTreeMap::new(alloc),
        }
    }

    /// The elements of an identifier, of an attribute where one is asked for, and then also of a value where one is asked for.
    pub fn candidates(
        &self,
        alloc: Global,
        id: Sym,
        attr: Option<Sym>,
        value: Option<Sym>,
    ) -> Result<Vec<Element>, NoMemory>
        ensures { IfOk result (λ v. v.items ≡ filter (meets id attr (value_beside attr value)) self.now) }
    {
        let value = value_beside(attr, value);
        run_of(alloc, &self.by_key, id, attr, value)
    }

    /// Copies of all elements.
    pub fn all(&self, alloc: Global) -> Result<Vec<Element>, NoMemory>
        ensures { IfOk result (λ v. v.items ≡ self.now) }
    {
        copy_all(alloc, &self.by_key)
    }

    /// Takes in an element whose tag is new. Want of memory changes nothing.
    pub fn add(&mut self, e: Element) -> Result<(), NoMemory>
        requires { list_any (has_tag e.tag) self.old ≡ false }
        ensures ok { OnOk result ((x : ElementOf) → IsIn x self.new ↔ ((e ≡ x) ⊎ IsIn x self.old)) }
        ensures err { OnErr result (self.new ≡ self.old) }
    {
        self.by_key.insert(key_of(&e), marks_of(&e))?;
        Ok(())
    }

    /// Takes an element out, whose tag no other has.
    pub fn remove(&mut self, e: &Element)
        requires { (x : ElementOf) → IsIn x self.old → x.tag ≡ e.now.tag → e.now ≡ x }
        ensures { (x : ElementOf) → IsIn x self.new ↔ (IsIn x self.old × (x.tag ≢ e.now.tag)) }
    {
        let _count = self.by_key.len();
        self.by_key.remove(&key_of(e));
    }
}

/// Whether a symbol is asked for, and another.
fn is_other(asked: Option<Sym>, symbol: Sym) -> bool
    ensures { result ≡ is_other asked (Some symbol) }
{
    match asked {
        None => false,
        Some(asked) => !is_symbol(asked, symbol),
    }
}

/// The symbol that is asked for, or the least of all.
fn or_least(asked: Option<Sym>) -> Sym
    ensures { result ≡ or_least asked }
{
    match asked {
        None => Sym::Ident {
            letter: 0,
            number: 0,
        },
        Some(asked) => asked,
    }
}

/// The least key of an identifier, and of an attribute and of a value where they are asked for.
fn least_key(id: Sym, attr: Option<Sym>, value: Option<Sym>) -> PackedKey
    ensures { result ≡ least_key id attr value }
{
    PackedKey::new(id, or_least(attr), or_least(value), 0)
}

/// The value that is asked for, where an attribute is.
fn value_beside(attr: Option<Sym>, value: Option<Sym>) -> Option<Sym>
    ensures { result ≡ value_beside attr value }
{
    match attr {
        Some(_) => value,
        None => None,
    }
}

/// Whether a key is of an identifier, and of an attribute and of a value where they are asked for.
fn key_meets(key: &PackedKey, id: Sym, attr: Option<Sym>, value: Option<Sym>) -> bool
    ensures { result ≡ key_meets id attr value key.now }
{
    let key = key.key();
    is_symbol(id, key.id) && !is_other(attr, key.attr) && !is_other(value, key.value)
}

/// The elements of the keys that are not below the least, up to the first that does not meet.
fn run_of(
    alloc: Global,
    by_key: &BTreeMap<PackedKey, Marks>,
    id: Sym,
    attr: Option<Sym>,
    value: Option<Sym>,
) -> Result<Vec<Element>, NoMemory>
    ensures run { IfOk result (λ v. v.items ≡ elements_in (front_while (λ e. key_meets id attr value e.0) (entries_from (least_key id attr value) by_key.now.entries))) }
    ensures ordered { OnOk result (IsOrdered key_cmp by_key.now) }
{
    let _count = by_key.len();
    let mut out = Vec::new(alloc);
    let least = least_key(id, attr, value);
    'run: for (key, marks) in by_key.range(least..) {
        if !key_meets(key, id, attr, value) {
            break 'run;
        }
        out.push(element_at(key, marks))?;
    }
    Ok(out)
}
