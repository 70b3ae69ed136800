// How much an agent did and holds.
ghost use Rattle.std.specs.Prelude.{◌≡◌, length, map};
ghost use Rattle.defs_match.specs.Rules.{rule_seen};
ghost use Rattle.defs_run.specs.Listing.{is_chunk};
ghost use Rattle.soar_wm.specs.WorkingMemory.{IsLawful};
ghost use Rattle.soar_cycle.specs.Counting.{chunks_among, count_at, counts_in};

use cycle_phases::Parts;
use rule_shelf::Rules;
use soar_rule::Kind;
use soar_wm::Memory;

/// How much was done since the start or the last start anew, and how much there is now.
#[derive(Clone, Copy)]
pub struct Counts {
    /// Cycles that began.
    pub cycles: u64,

    /// Waves of all phases.
    pub waves: u64,

    /// Firings of all waves.
    pub firings: u64,

    /// Firings that were retracted.
    pub retractions: u64,

    /// Productions that are loaded, learned ones among them.
    pub productions: u64,

    /// Elements of working memory.
    pub elements: u64,

    /// Rows of preference memory.
    pub preferences: u64,

    /// Firings that were not retracted.
    pub live: u64,

    /// Chunks among the productions.
    pub chunks: u64,
}

pub fn counts_in(parts: &Parts) -> Counts
    ensures { result ≡ counts_in parts.now }
{
    Counts {
        cycles: parts.cycles,
        waves: parts.waves,
        firings: parts.firings,
        retractions: parts.retractions,
        productions: parts.rules.len() as u64,
        elements: count_elements(&parts.memory),
        preferences: parts.prefs.len() as u64,
        live: parts.live.len() as u64,
        chunks: count_chunks(&parts.rules) as u64,
    }
}

/// How many elements there are: one or none of each tag up to the last.
fn count_elements(memory: &Memory) -> u64
    ensures { result ≡ length memory.now.elements }
{
    let mut tag = 0;
    let mut count = count_at(memory, 0);
    'tags: while tag < memory.last_tag() {
        tag += 1;
        count += count_at(memory, tag);
    }
    count
}

/// How many elements have a tag: one or none.
fn count_at(memory: &Memory, tag: u32) -> u64
    ensures count { result ≡ count_at tag memory.now.elements }
    ensures lawful { IsLawful memory.now }
{
    match memory.get(tag) {
        Some(_) => 1,
        None => 0,
    }
}

/// How many rules are chunks.
fn count_chunks(rules: &Rules) -> usize
    ensures { result ≡ length (chunks_among (map rule_seen rules.now)) }
{
    let most = rules.len();
    let mut count = 0;
    'rules: for rule in rules.iter() {
        if is_chunk(rule.production.kind) && count < most {
            count += 1;
        }
    }
    count
}

fn is_chunk(kind: Kind) -> bool
    ensures { result ≡ is_chunk kind }
{
    match kind {
        Kind::Chunk => true,
        _ => false,
    }
}
