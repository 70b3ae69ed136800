// The line of what learning from a firing came to.
ghost use Rattle.std.specs.Prelude.{◌≡◌, [], string_bytes, IfOk, OnErr, OnOk};
ghost use Rattle.soar_sym.specs.Words.{IsKnown};
ghost use Rattle.defs_text.specs.Symbols.{tags_text};
ghost use Rattle.defs_soar.specs.Events.{has_lost, has_no_grounds, is_blocked, justifies, learning, learns, reuses};
ghost use Rattle.defs_soar.specs.Trace.{learned_text, learning_text};
ghost use Rattle.chain_texts.specs.Events.{IsCauseKnown, IsLearningKnown};
ghost use Rattle.trace_lines.specs.Saying.{SaysNothing};
ghost use Rattle.trace_details.specs.Details.{SaysAt};
ghost use Rattle.trace_details.specs.Lessons.{lesson_seen};

use crate::cause::cause_text;
use crate::level::{LESSONS, is_shown};
use crate::line::say_line;
use defs_soar::Cause;
use soar_sym::{List, NoMemory, Sym, SymTable, Text};
use std::alloc::{AllocError, Global};
use trace_lines::{push_tags, symbol_text};

/// The firing of a rule that was learned: its number, the name of the rule, the number of the firing that the rule
/// explains, and the tags of its instance.
#[derive(Drop)]
pub struct LearnedFiring {
    pub number: u64,
    pub name: Sym,
    pub explained: u64,
    pub tags: List<u32>,
}

/// What learning from a firing came to (Soar manual, chapter 4, chunking). `explained` is the number of that firing.
#[derive(Drop)]
pub enum Lesson {
    /// A chunk was learned.
    Chunk(LearnedFiring),
    /// A justification took the chunk's place.
    Justification(LearnedFiring, Cause),
    /// There is nothing to make a rule of.
    NoGrounds {
        explained: u64,
    },
    /// A rule of this name is as the chunk would be.
    Reused {
        name: Sym,
        explained: u64,
    },
    /// The element of this tag is gone.
    Lost {
        explained: u64,
        tag: u32,
    },
    /// The element of this tag stands against the negation at this place.
    Blocked {
        explained: u64,
        place: u32,
        tag: u32,
    },
}

/// Appends the line of what learning from a firing came to, as `learn 12 chunk*1 from 11: 3 5`.
pub fn say_lesson(
    watch: u8,
    table: &SymTable,
    lesson: &Lesson,
    out: &mut Text,
    mid_line: &mut bool,
) -> Result<(), NoMemory>
    requires { IsLearningKnown table.now (lesson_seen lesson.now) }
    ensures ok { OnOk result (SaysAt watch table.now (learning (lesson_seen lesson.now)) mid_line.old out.old mid_line.new out.new) }
    ensures err { OnErr result (SaysNothing mid_line.old out.old mid_line.new out.new) }
{
    if !is_shown(watch, LESSONS) {
        return Ok(());
    }
    let text = lesson_text(out.allocator(), table, lesson)?;
    say_line(out, mid_line, text.as_str())
}

fn lesson_text(alloc: Global, table: &SymTable, lesson: &Lesson) -> Result<String, NoMemory>
    requires { IsLearningKnown table.now (lesson_seen lesson.now) }
    ensures { IfOk result (λ text. string_bytes text ≡ learning_text table.now (lesson_seen lesson.now)) }
{
    match lesson {
        Lesson::Chunk(learned) => chunk_text(alloc, table, learned),
        Lesson::Justification(learned, cause) => {
            justification_text(alloc, table, learned, *cause)
        }
        Lesson::NoGrounds { explained } => Ok(groundless_text(alloc, *explained)?),
        Lesson::Reused { name, explained } => reuse_text(alloc, table, *name, *explained),
        Lesson::Lost { explained, tag } => Ok(lost_text(alloc, *explained, *tag)?),
        Lesson::Blocked {
            explained,
            place,
            tag,
        } => Ok(blocked_text(alloc, *explained, *place, *tag)?),
    }
}

fn chunk_text(alloc: Global, table: &SymTable, learned: &LearnedFiring) -> Result<String, NoMemory>
    requires { IsKnown table.now learned.now.name }
    ensures { IfOk result (λ text. string_bytes text ≡ learning_text table.now (learns learned.now.number learned.now.name learned.now.explained learned.now.tags)) }
{
    let learned = learned_text(alloc, table, learned)?;
    let learned = learned.as_str();
    Ok(format!(in alloc; "learn {learned}")?)
}

fn justification_text(
    alloc: Global,
    table: &SymTable,
    learned: &LearnedFiring,
    cause: Cause,
) -> Result<String, NoMemory>
    requires name { IsKnown table.now learned.now.name }
    requires cause { IsCauseKnown table.now cause }
    ensures { IfOk result (λ text. string_bytes text ≡ learning_text table.now (justifies learned.now.number learned.now.name learned.now.explained learned.now.tags cause)) }
{
    let learned = learned_text(alloc, table, learned)?;
    let cause = cause_text(alloc, table, cause)?;
    let (learned, cause) = (learned.as_str(), cause.as_str());
    Ok(format!(in alloc; "justify {learned} ({cause})")?)
}

/// The number, the name, the number of the firing explained, and the tags.
fn learned_text(
    alloc: Global,
    table: &SymTable,
    learned: &LearnedFiring,
) -> Result<String, NoMemory>
    requires { IsKnown table.now learned.now.name }
    ensures { IfOk result (λ text. string_bytes text ≡ learned_text table.now learned.now.number learned.now.name learned.now.explained learned.now.tags) }
{
    let name = symbol_text(alloc, table, learned.name)?;
    let tags = tags_text(alloc, learned.tags.as_slice())?;
    let (number, explained) = (learned.number, learned.explained);
    let (name, tags) = (name.as_str(), tags.as_str());
    Ok(format!(in alloc; "{number} {name} from {explained}:{tags}")?)
}

fn tags_text(alloc: Global, tags: &[u32]) -> Result<Text, AllocError>
    ensures { IfOk result (λ text. text ≡ tags_text tags.now) }
{
    let mut text = Text::new(alloc);
    push_tags(&mut text, tags)?;
    Ok(text)
}

fn groundless_text(alloc: Global, explained: u64) -> Result<String, AllocError>
    ensures { IfOk result (λ text. string_bytes text ≡ learning_text [] (has_no_grounds explained)) }
{
    format!(in alloc; "justify from {explained} (no grounds)")
}

fn reuse_text(
    alloc: Global,
    table: &SymTable,
    name: Sym,
    explained: u64,
) -> Result<String, NoMemory>
    requires { IsKnown table.now name }
    ensures { IfOk result (λ text. string_bytes text ≡ learning_text table.now (reuses name explained)) }
{
    let name = symbol_text(alloc, table, name)?;
    let name = name.as_str();
    Ok(format!(in alloc; "reuse {name} from {explained}")?)
}

fn lost_text(alloc: Global, explained: u64, tag: u32) -> Result<String, AllocError>
    ensures { IfOk result (λ text. string_bytes text ≡ learning_text [] (has_lost explained tag)) }
{
    format!(in alloc; "stale {explained} lost {tag}")
}

fn blocked_text(alloc: Global, explained: u64, place: u32, tag: u32) -> Result<String, AllocError>
    ensures { IfOk result (λ text. string_bytes text ≡ learning_text [] (is_blocked explained place tag)) }
{
    format!(in alloc; "stale {explained} blocked {place} by {tag}")
}
