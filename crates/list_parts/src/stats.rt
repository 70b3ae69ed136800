// The line of counts.
ghost use Rattle.std.specs.Prelude.{◌≡◌, ◌∷◌, [], string_bytes, IfOk, OnErr, OnOk};
ghost use Rattle.session_parts.specs.Saying.{Says};
ghost use Rattle.trace_lines.specs.Saying.{SaysNothing};
ghost use Rattle.list_parts.specs.Counted.{stats_line};

use crate::line::say_line;
use soar_sym::{NoMemory, Text};
use std::alloc::{AllocError, Global};

/// What an agent counted since its start, and how much it has now.
#[derive(Clone, Copy)]
pub struct Stats {
    /// Cycles that began.
    pub cycles: u64,

    /// Waves of all phases.
    pub waves: u64,

    /// Firings of all waves.
    pub firings: u64,

    /// Firings that were retracted.
    pub retractions: u64,

    /// Productions that are loaded, learned ones among them.
    pub productions: u64,

    /// Elements of working memory.
    pub elements: u64,

    /// Rows of preference memory.
    pub preferences: u64,

    /// Firings that were not retracted.
    pub live: u64,

    /// Chunks among the productions.
    pub chunks: u64,
}

/// Appends the line of counts and sizes.
pub fn say_stats(stats: &Stats, out: &mut Text, mid_line: &mut bool) -> Result<(), NoMemory>
    ensures ok { OnOk result (Says (stats_line stats.now ∷ []) mid_line.old out.old mid_line.new out.new) }
    ensures err { OnErr result (SaysNothing mid_line.old out.old mid_line.new out.new) }
{
    let text = stats_text(out.allocator(), stats)?;
    say_line(out, mid_line, text.as_str())
}

fn stats_text(alloc: Global, stats: &Stats) -> Result<String, AllocError>
    ensures { IfOk result (λ text. string_bytes text ≡ stats_line stats.now) }
{
    let (cycles, waves, firings) = (stats.cycles, stats.waves, stats.firings);
    let (retractions, productions, elements) = (
        stats.retractions,
        stats.productions,
        stats.elements,
    );
    let (preferences, live, chunks) = (stats.preferences, stats.live, stats.chunks);
    Ok(format!(in alloc;
        "cycles {cycles} waves {waves} firings {firings} retractions {retractions} productions {productions} elements {elements} preferences {preferences} live {live} chunks {chunks}"
    )?)
}
