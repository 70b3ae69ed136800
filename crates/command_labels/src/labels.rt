ghost use Rattle.std.specs.Prelude.{◌≡◌, true, [], ◌∷◌, ◌++◌, None, is_some, map, IfSome, OnOk, OnErr};
ghost use Rattle.soar_sym.specs.Words.{IsKnown, Texts};
ghost use Rattle.defs_run.specs.Sessions.{label_in};
ghost use Rattle.command_labels.specs.Found.{all_of, label_seen, symbol_of, IsAdded, IsKept, IsNoted};

use crate::label::{Again, Label, Meant};
use indexmap::IndexMap;
use soar_sym::{List, NoMemory, Sym};
use std::alloc::Global;
use std::marker::Model;

/// The labels of commands, in the order in which they were made, found by name. Of two labels of a name the first counts.
#[derive(Drop)]
pub struct Labels {
    /// What the first label of each name stands for, in the order of those labels.
    first: IndexMap<String, Meant>,
    /// The other labels, in their order.
    again: List<Again>,
}

impl Model for Labels {
    ghost use Rattle.std.specs.Prelude.{List as ListOf};
    ghost use Rattle.std.specs.Coded.{coded_list};
    ghost use Rattle.command_labels.specs.contracts.label.Label as label;
    ghost use Rattle.command_labels.specs.declared.label.Label.{Label as LabelKept};
    ghost use Rattle.command_labels.specs.Found.{all_of, IsKept};

    ghost Value = { ListOf LabelKept };

    ghost coded = { coded_list label.the_row.coded };

    ghost view = { λ l. all_of l.first.entries l.again };

    ghost invariant = { λ l. IsKept l.first.entries l.again };
}

impl Labels {
    /// No labels. It takes no memory.
    pub fn new(alloc: Global) -> Labels
        ensures { result ≡ [] }
    {
        Labels {
            first: IndexMap::new(alloc),
            again: List::new(alloc),
        }
    }

    /// The identifier of the first label of a name.
    pub fn find(&self, name: &str) -> Option<Sym>
        ensures symbol { result ≡ label_in (map label_seen self.now) name.now }
        ensures known { (words : Texts) → IfSome result (λ symbol. IsKnown words symbol) }
    {
        found(&self.first, name)
    }

    /// Adds a label behind all others. Where memory is refused all stays as it was.
    pub fn add(&mut self, label: Label) -> Result<(), NoMemory>
        ensures ok { OnOk result (self.new ≡ self.old ++ label ∷ []) }
        ensures err { OnErr result (self.new ≡ self.old) }
    {
        put_last(&mut self.first, &mut self.again, label)
    }
}

/// Adds a label behind all others. Where memory is refused all stays as it was.
fn put_last(
    first: &mut IndexMap<String, Meant>,
    again: &mut List<Again>,
    label: Label,
) -> Result<(), NoMemory>
    requires { IsKept first.old.entries again.old }
    ensures kept { IsKept first.new.entries again.new }
    ensures ok { OnOk result (all_of first.new.entries again.new ≡ all_of first.old.entries again.old ++ label ∷ []) }
    ensures err { OnErr result (all_of first.new.entries again.new ≡ all_of first.old.entries again.old) }
{
    if found(first, label.name.as_str()).is_some() {
        place(first, again, label)
    } else {
        note(first, label)
    }
}

/// Adds a label of a name that had come before.
fn place(
    first: &IndexMap<String, Meant>,
    again: &mut List<Again>,
    label: Label,
) -> Result<(), NoMemory>
    requires kept { IsKept first.now.entries again.old }
    requires known { is_some (symbol_of first.now.entries label.name) ≡ true }
    ensures ok { OnOk result (IsAdded first.now.entries again.new (all_of first.now.entries again.old) label) }
    ensures err { OnErr result (again.new ≡ again.old) }
{
    let Some(place) = first.len().checked_add(again.len()) else {
        return Err(NoMemory);
    };
    again.push(Again { place, label })?;
    Ok(())
}

/// The symbol that is noted of a name.
fn found(first: &IndexMap<String, Meant>, name: &str) -> Option<Sym>
    ensures { result ≡ symbol_of first.now.entries name.now }
{
    match first.get(name) {
        Some(meant) => Some(meant.symbol),
        None => None,
    }
}

/// Notes a label of a name of which none is noted.
fn note(first: &mut IndexMap<String, Meant>, label: Label) -> Result<(), NoMemory>
    requires { symbol_of first.old.entries label.name ≡ None }
    ensures ok { OnOk result (IsNoted first.old.entries first.new.entries label) }
    ensures err { OnErr result (first.new.entries ≡ first.old.entries) }
{
    let (name, meant) = label.into_parts();
    first.insert(name, meant)?;
    Ok(())
}
