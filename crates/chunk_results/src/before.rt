// A firing, with the levels and goals before its wave.
ghost use Rattle.std.specs.Prelude.{◌≡◌};
ghost use Rattle.defs_soar.specs.History.{firing_seen};
ghost use Rattle.defs_soar.specs.Uses.{is_above};
ghost use Rattle.chunk_results.specs.Told as told;

use chain_identifiers::is_new_in;
use defs_soar::{Firing, Goal, Leveled, Wish, is_goal};
use soar_sym::{Sym, is_identifier};

#[derive(Drop)]
pub(crate) struct Before<'a, L> {
    pub(crate) levels: &'a L,
    pub(crate) goals: &'a [Goal],
    pub(crate) firing: &'a Firing,
}

impl<'a, L: Leveled> Before<'a, L> {
    /// Whether a wish is for an identifier of a higher level than the firing's.
    pub(crate) fn is_result(&self, wish: &Wish) -> bool
        ensures { result ≡ told.is_told_result (L.told self.now.levels.now) self.now.firing.now.depth wish.now }
    {
        is_above(self.levels.level_of(wish.id), self.firing.depth)
    }

    /// Whether a symbol is a local or new identifier, and no goal.
    pub(crate) fn hangs(&self, symbol: Sym) -> bool
        ensures { result ≡ told.hangs_as_told (L.told self.now.levels.now) self.now.goals.now (firing_seen self.now.firing.now) symbol }
    {
        is_identifier(symbol)
            && !is_goal(self.goals, symbol)
            && (is_at(self.levels.level_of(symbol), self.firing.depth)
                || is_new_in(self.firing, symbol))
    }
}

fn is_above(level: Option<u32>, depth: u32) -> bool
    ensures { result ≡ is_above level depth }
{
    match level {
        Some(level) => level < depth,
        None => false,
    }
}

fn is_at(level: Option<u32>, depth: u32) -> bool
    ensures { result ≡ told.is_told_at level depth }
{
    match level {
        Some(level) => level == depth,
        None => false,
    }
}
