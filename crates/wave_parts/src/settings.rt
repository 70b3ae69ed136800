ghost use Rattle.std.specs.Prelude.{IsTrue};
ghost use Rattle.wave_parts.specs.Modes.{is_fraction};

use defs_soar::Mode;

/// How an agent is set (Soar manual, chapter 9: learn, decide, max-elaborations, watch).
#[derive(Clone, Copy)]
pub struct Settings {
    pub learning: bool,
    pub local_negations: bool,
    pub mode: Mode,
    /// How many waves a phase has at most.
    pub max_elaborations: u32,
    /// The watch level, from 0 to 5.
    pub watch: u8,
    /// A probability of drawing is at most 1.
    ghost fraction: { IsTrue (is_fraction mode) },
}
