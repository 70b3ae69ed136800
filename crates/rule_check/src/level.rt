// The conditions of one list while they are put into match order.
ghost use Rattle.std.specs.Prelude.{◌≡◌, ◌+◌, ◌<◌, ◌^◌, [], ◌∷◌, ◌++◌, length, replicate, slice_set, IfOk, OnOk, IfNone, option_map};
ghost use Rattle.soar_rule.specs.Conditions.{condition};
ghost use Rattle.soar_rule.specs.Variables.{bound_by};
ghost use Rattle.rule_check.specs.declared.level.Standing.TheVariants as standing;
ghost use Rattle.rule_check.specs.Levels.{lack_of, left_of, nothing_left, noted, readiness_seen, ready_of, standing_at, with_left};
ghost use Rattle.rule_check.specs.Marking.{Joined};

use crate::binding::join_bound;
use crate::marks::Marks;
use crate::readiness::Readiness;
use soar_rule::Cond;
use soar_sym::{List, NoMemory};
use std::alloc::Global;

/// What is known of a condition.
#[derive(Clone, Copy)]
pub(crate) enum Standing {
    /// Nothing that lasts.
    Open,
    Taken,
    /// It lacks this variable for good.
    Lacks(u32),
}

/// What the conditions lack that were left.
#[derive(Clone, Copy)]
pub(crate) struct Left {
    /// What the first positive one lacks that lacks a variable.
    pub positive: Option<u32>,
    /// What the first negation lacks.
    pub negation: Option<u32>,
    /// The place of the first positive one, from 1.
    pub place: Option<usize>,
}

impl Left {
    pub fn nothing() -> Left
        ensures { result ≡ nothing_left }
    {
        Left {
            positive: None,
            negation: None,
            place: None,
        }
    }

    /// Notes a condition that was left at a place, from 0, and which variable it lacks.
    fn add(&mut self, positive: bool, place: usize, lack: Option<u32>)
        requires { place + 1 < 2 ^ 64 }
        ensures { self.new ≡ with_left self.old (left_of positive place lack) }
    {
        if positive {
            self.positive = self.positive.or(lack);
            self.place = self.place.or(Some(place + 1));
        } else {
            self.negation = self.negation.or(lack);
        }
    }
}

/// The conditions taken so far, and the variables that they bind.
#[derive(Drop)]
pub(crate) struct Level {
    pub standings: List<Standing>,
    pub conds: List<Cond>,
    pub bound: Marks,
}

impl Level {
    /// So many conditions, of which none is taken.
    pub fn new(alloc: Global, count: usize, bound: Marks) -> Result<Level, NoMemory>
        ensures standings { IfOk result (λ level. level.standings ≡ replicate count standing.Open) }
        ensures conds { IfOk result (λ level. level.conds ≡ []) }
        ensures bound { IfOk result (λ level. level.bound ≡ bound) }
    {
        let standings = vec![in alloc; Standing::Open; count]?;
        Ok(Level {
            standings: List::from_vec(standings),
            conds: List::new(alloc),
            bound,
        })
    }

    pub fn standing(&self, place: usize) -> Standing
        requires { place < length self.now.standings }
        ensures { result ≡ standing_at self.now.standings place }
    {
        self.standings.as_slice()[place]
    }

    /// Takes the condition at a place, in this form.
    pub fn take(&mut self, place: usize, cond: Cond) -> Result<(), NoMemory>
        requires { place < length self.old.standings }
        ensures standings { OnOk result (self.new.standings ≡ slice_set self.old.standings place standing.Taken) }
        ensures conds { OnOk result (self.new.conds ≡ self.old.conds ++ cond ∷ []) }
        ensures bound { OnOk result (Joined self.old.bound.marks self.new.bound.marks (bound_by (condition cond))) }
    {
        self.standings.set(place, Standing::Taken);
        let joined = join_bound(&mut self.bound, &cond);
        self.conds.push(cond)?;
        joined
    }

    /// Notes what the condition at a place lacks, and answers it where it is ready.
    pub fn note(
        &mut self,
        left: &mut Left,
        positive: bool,
        place: usize,
        found: Readiness,
    ) -> Option<Cond>
        requires within { place < length self.old.standings }
        requires counted { place + 1 < 2 ^ 64 }
        ensures ready { option_map condition result ≡ ready_of (readiness_seen found) }
        ensures left { IfNone result (left.new ≡ with_left left.old (left_of positive place (lack_of (readiness_seen found)))) }
        ensures standings { self.new ≡ record self.old { standings = noted self.old.standings place found } }
    {
        match found {
            Readiness::Ready(ready) => Some(ready),
            Readiness::Waits(number) => {
                left.add(positive, place, Some(number));
                None
            }
            Readiness::Lacks(number) => {
                self.standings.set(place, Standing::Lacks(number));
                left.add(positive, place, Some(number));
                None
            }
            Readiness::Unlinked => {
                left.add(positive, place, None);
                None
            }
        }
    }
}
