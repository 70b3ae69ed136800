use defs_soar::Firing;
use shared_values::Shared;
use soar_sym::Sym;

/// A firing with its match goal, where it has one, and whether it is of operator kind.
#[derive(Drop)]
pub struct Recorded {
    pub firing: Shared<Firing>,
    pub goal: Option<Sym>,
    pub operator_kind: bool,
}
