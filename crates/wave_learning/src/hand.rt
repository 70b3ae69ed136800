use crate::program::Program;
use soar_sym::List;
use wave_entries::Entry;

/// A wave as it came out so far: the rules, the last number of a firing, how many chunks this cycle learned, and the
/// entries.
#[derive(Drop)]
pub struct AtHand {
    pub program: Program,
    pub last: u64,
    pub learned: u32,
    pub entries: List<Entry>,
}
