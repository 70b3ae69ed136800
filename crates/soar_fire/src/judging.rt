// Whether a wish may stand.
ghost use Rattle.std.specs.Prelude.{◌≡◌, IfOk};
ghost use Rattle.soar_rule.specs.Productions.{preference_seen};
ghost use Rattle.defs_soar.specs.Firing.{fits_operator, is_for_operator, is_in_range, is_ordinary_kind, is_referent, judged, kind_of, within_range};
ghost use Rattle.defs_soar.specs.Values.{is_identifier, is_kind};

use defs_soar::{DropCause, Goal, PrefKind, Wish, is_operator_slot};
use soar_rule::Pref;
use soar_sym::Sym;

/// The greatest number of a numeric preference, and the least without its sign.
const MOST_NUMERIC: i64 = 1_000_000_000;

/// The kind of a preference: `=` with an integer is numeric.
pub fn kind_of(pref: &Pref, referent: Option<Sym>) -> PrefKind
    ensures { result ≡ kind_of (preference_seen pref.now) referent }
{
    match pref {
        Pref::Accept => PrefKind::Accept,
        Pref::Reject => PrefKind::Reject,
        Pref::Require => PrefKind::Require,
        Pref::Prohibit => PrefKind::Prohibit,
        Pref::Better(_) => PrefKind::Better,
        Pref::Worse(_) => PrefKind::Worse,
        Pref::Best => PrefKind::Best,
        Pref::Worst => PrefKind::Worst,
        Pref::Indifferent => PrefKind::Indifferent,
        Pref::IndifferentTo(_) => match referent {
            Some(Sym::Int(_)) => PrefKind::Numeric,
            _ => PrefKind::IndifferentTo,
        },
    }
}

/// The wish, or why it may not stand.
pub fn judged(goals: &[Goal], wish: Wish) -> Result<Wish, DropCause>
    ensures judged { result ≡ judged goals.now wish }
    ensures same { IfOk result (λ w. w ≡ wish) }
{
    if !is_for_operator(goals, wish) {
        Err(DropCause::NotAnOperator)
    } else if !is_in_range(wish) {
        Err(DropCause::OutOfRange)
    } else {
        Ok(wish)
    }
}

/// Preferences other than `+` and `-` are for the operators of goals, and these are identifiers.
fn is_for_operator(goals: &[Goal], wish: Wish) -> bool
    ensures { result ≡ is_for_operator goals.now wish }
{
    if is_operator_slot(goals, wish.id, wish.attr) {
        fits_operator(wish)
    } else {
        is_ordinary_kind(wish.kind)
    }
}

fn is_ordinary_kind(kind: PrefKind) -> bool
    ensures { result ≡ is_ordinary_kind kind }
{
    match kind {
        PrefKind::Accept | PrefKind::Reject => true,
        _ => false,
    }
}

fn fits_operator(wish: Wish) -> bool
    ensures { result ≡ fits_operator wish }
{
    is_identifier(wish.value) && is_referent(wish.kind, wish.referent)
}

/// Whether a symbol can be a referent: an identifier, or an integer where `=` stands before it.
fn is_referent(kind: PrefKind, referent: Option<Sym>) -> bool
    ensures { result ≡ is_referent kind referent }
{
    match referent {
        Some(symbol) => is_identifier(symbol) || is_numeric(kind),
        None => true,
    }
}

fn is_in_range(wish: Wish) -> bool
    ensures { result ≡ is_in_range wish }
{
    !is_numeric(wish.kind) || within_range(wish.referent)
}

fn is_numeric(kind: PrefKind) -> bool
    ensures { result ≡ is_kind kind PrefKind.Numeric }
{
    match kind {
        PrefKind::Numeric => true,
        _ => false,
    }
}

fn within_range(referent: Option<Sym>) -> bool
    ensures { result ≡ within_range referent }
{
    match referent {
        Some(Sym::Int(value)) => -MOST_NUMERIC <= value && value <= MOST_NUMERIC,
        _ => true,
    }
}

pub fn is_identifier(symbol: Sym) -> bool
    ensures { result ≡ is_identifier symbol }
{
    match symbol {
        Sym::Ident { .. } => true,
        _ => false,
    }
}
