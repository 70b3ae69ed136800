// New numbers of variables.
ghost use Rattle.soar_sym.specs.declared.symbol.Sym.TheVariants as symbol;
ghost use Rattle.std.specs.Prelude.{◌≡◌, ℕ, Bool, ◌+◌, pos, ◌≤◌, ◌==◌, nat_lt, ◌&&◌, ◌∷◌, [], length, slice_index, IfOk, OnOk};
ghost use Rattle.soar_rule.specs.Canonical.{numbers_from, place_among};
ghost use Rattle.soar_rule.specs.Numbering.{ArePlaced};
ghost use Rattle.soar_rule.specs.Variables.{with_each};

use soar_sym::{List, NoMemory, Sym};
use std::alloc::Global;

/// Variables in the order in which they were met. The new number of each is its place.
#[derive(Drop)]
pub struct Numbering {
    order: List<u32>,

    /// The place of each variable that was met, by its old number. No other entry counts.
    places: List<u32>,

    ghost placed: { ArePlaced order places },
}

impl Numbering {
    /// No variable was met.
    pub fn new(alloc: Global) -> Numbering
        ensures { result.order ≡ [] }
    {
        Numbering {
            order: List::new(alloc),
            places: List::new(alloc),
        }
    }

    /// Meets a variable, which joins the others where it is new.
    pub fn meet(&mut self, variable: u32) -> Result<(), NoMemory>
        ensures { OnOk result (self.new.order ≡ with_each self.old.order (variable ∷ [])) }
    {
        let number = self.number(variable);
        if (number as usize) < self.order.len() {
            return Ok(());
        }
        grow(&mut self.places, variable as usize + 1)?;
        self.order.push(variable)?;
        self.places.set(variable as usize, number);
        Ok(())
    }

    /// The new number of a variable. One that was not met would get it next.
    pub fn number(&self, variable: u32) -> u32
        ensures { result ≡ place_among self.now.order variable }
    {
        number_of(self.order.as_slice(), self.places.as_slice(), variable)
    }

    /// A name for each variable that was met: one more than its new number.
    pub fn names(&self, alloc: Global) -> Result<List<Sym>, NoMemory>
        ensures { IfOk result (λ names. names ≡ numbers_from 1 self.now.order) }
    {
        let mut names = List::new(alloc);
        'variables: for variable in self.order.as_slice() {
            names.push(name_of(self.number(*variable)))?;
        }
        Ok(names)
    }
}

/// The name of the variable with this new number.
fn name_of(number: u32) -> Sym
    ensures { result ≡ symbol.Int (pos (number + 1)) }
{
    Sym::Int(i64::from(number) + 1)
}

/// The place of a variable among these, and how many they are where it is new.
fn number_of(order: &[u32], places: &[u32], variable: u32) -> u32
    requires { ArePlaced order.now places.now }
    ensures { result ≡ place_among order.now variable }
{
    let place = place_of(places, variable);
    if stands_at(order, place, variable) {
        place
    } else {
        order.len() as u32
    }
}

/// The place beside a variable, 0 where there is none.
fn place_of(places: &[u32], variable: u32) -> u32
    ensures { result ≡ slice_index places.now variable }
{
    let at = variable as usize;
    if at < places.len() { places[at] } else { 0 }
}

/// Whether the variable stands at this place.
fn stands_at(order: &[u32], place: u32, variable: u32) -> bool
    ensures { result ≡ nat_lt place (length order.now) && (slice_index order.now place == variable) }
{
    let at = place as usize;
    at < order.len() && order[at] == variable
}

/// Makes room for the places of so many variables.
fn grow(places: &mut List<u32>, count: usize) -> Result<(), NoMemory>
    ensures room { OnOk result (count ≤ length places.new) }
    ensures same { (variable : ℕ) → slice_index places.new variable ≡ slice_index places.old variable }
{
    'places: while places.len() < count {
        places.push(0)?;
    }
    Ok(())
}
