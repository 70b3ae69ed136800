// The watch levels from which lines are shown.
ghost use Rattle.std.specs.Prelude.{◌≡◌, nat_le};

pub const PARTS: u8 = 2;

pub const REMOVALS: u8 = 2;

pub const FIRINGS: u8 = 3;

pub const LESSONS: u8 = 3;

pub const ELEMENTS: u8 = 4;

pub const WISHES: u8 = 5;

pub const DROPS: u8 = 5;

/// Whether a line of a level is shown at a watch level.
pub fn is_shown(watch: u8, level: u8) -> bool
    ensures { result ≡ nat_le level watch }
{
    level <= watch
}
