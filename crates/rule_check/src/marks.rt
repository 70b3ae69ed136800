// Sets of variables.
ghost use Rattle.std.specs.Prelude.{◌≡◌, ℕ, ◌≤◌, ◌∷◌, [], length, IfOk, OnOk};
ghost use Rattle.rule_check.specs.Marking.{Joined, AreMarked, is_marked};

use soar_sym::{List, NoMemory};
use std::alloc::Global;

/// Variables, by their numbers: a mark for each number up to the last that is among them.
#[derive(Drop)]
pub struct Marks {
    marks: List<bool>,
}

impl Marks {
    /// No variable.
    pub fn new(alloc: Global) -> Marks
        ensures { AreMarked result.marks [] }
    {
        Marks {
            marks: List::new(alloc),
        }
    }

    /// Whether the variable of a number is among them.
    pub fn has(&self, number: u32) -> bool
        ensures { result ≡ is_marked self.now.marks number }
    {
        let at = number as usize;
        at < self.marks.len() && self.marks.as_slice()[at]
    }

    /// Joins the variable of a number to them.
    #[tactic(auto, using(soar_rule::proofs::VariableLemmas::among_joined, crate::proofs::MarkLemmas::set_marked))]
    pub fn join(&mut self, number: u32) -> Result<(), NoMemory>
        ensures { OnOk result (Joined self.old.marks self.new.marks (number ∷ [])) }
    {
        grow(&mut self.marks, number as usize + 1)?;
        self.marks.set(number as usize, true);
        Ok(())
    }

    /// The same variables, in memory of their own.
    pub fn copy(&self, alloc: Global) -> Result<Marks, NoMemory>
        ensures { IfOk result (λ copy. copy ≡ self.now) }
    {
        Ok(Marks {
            marks: List::from_slice(alloc, self.marks.as_slice())?,
        })
    }
}

/// Makes room for the marks of so many numbers, with none set that was not.
fn grow(marks: &mut List<bool>, count: usize) -> Result<(), NoMemory>
    ensures room { OnOk result (count ≤ length marks.new) }
    ensures same { OnOk result ((number : ℕ) → is_marked marks.new number ≡ is_marked marks.old number) }
{
    'marks: while marks.len() < count {
        marks.push(false)?;
    }
    Ok(())
}
