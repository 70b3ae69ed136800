ghost use Rattle.firing_records.specs.Kept.{level_in_kept};

use defs_soar::Leveled;
use firing_records::Kept;
use soar_sym::Sym;

/// The levels of what is kept.
#[derive(Drop)]
pub(crate) struct KeptLevels<'a> {
    pub(crate) kept: &'a Kept,
}

impl<'a> Leveled for KeptLevels<'a> {
    ghost told = { λ levels. level_in_kept levels.kept.now };

    fn level_of(&self, id: Sym) -> Option<u32> {
        self.kept.level_of(id)
    }
}
