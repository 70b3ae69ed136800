// How the preferences of a firing are held.
ghost use Rattle.std.specs.Prelude.{◌≡◌, map, IfOk};
ghost use Rattle.wave_firings.specs.Held.{held_as};

use defs_soar::{Goal, Wish, is_operator_slot};
use soar_sym::List;
use std::alloc::{AllocError, Global};
use wave_entries::{HeldBy, HeldWish};

/// The preferences of a firing of a kind, with how each is held.
pub fn held_of(
    alloc: Global,
    goals: &[Goal],
    operator_kind: bool,
    wishes: &[Wish],
) -> Result<List<HeldWish>, AllocError>
    ensures { IfOk result (λ held. held ≡ map (held_as goals.now operator_kind) wishes.now) }
{
    let mut held = List::from_vec(Vec::with_capacity(alloc, wishes.len())?);
    'wishes: for wish in wishes {
        held.push(held_wish(goals, operator_kind, *wish))?;
    }
    Ok(held)
}

/// The preference, held by the operator where its firing is of operator kind and it is not for a goal's operator, and
/// by its instance where not (Soar manual, chapter 2, persistence).
fn held_wish(goals: &[Goal], operator_kind: bool, wish: Wish) -> HeldWish
    ensures { result ≡ held_as goals.now operator_kind wish }
{
    let by = if operator_kind && !is_operator_slot(goals, wish.id, wish.attr) {
        HeldBy::Operator
    } else {
        HeldBy::Instance
    };
    HeldWish { wish, by }
}
