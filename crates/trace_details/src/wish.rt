// The line of a preference that a firing makes.
ghost use Rattle.std.specs.Prelude.{◌≡◌, IfOk, OnErr, OnOk};
ghost use Rattle.defs_soar.specs.Events.{makes_wish};
ghost use Rattle.defs_soar.specs.Trace.{piece_of, support_text};
ghost use Rattle.chain_texts.specs.Events.{IsWishKnown};
ghost use Rattle.trace_lines.specs.Saying.{SaysNothing, text_of_line};
ghost use Rattle.trace_details.specs.Details.{SaysAt, support_of};

use crate::level::{WISHES, is_shown};
use crate::line::say_line;
use chain_texts::show_wish;
use defs_soar::Wish;
use soar_sym::{NoMemory, SymTable, Text};
use std::alloc::Global;

/// How a preference is held: by its instance, by the operator, or by the learned firing to which it went over.
#[derive(Clone, Copy)]
pub enum HeldBy {
    Instance,
    Operator,
    Learned,
}

/// Appends the line of a preference under its firing, as `  (S1 ^operator O1 > O2) i`.
pub fn say_wish(
    watch: u8,
    table: &SymTable,
    wish: &Wish,
    held_by: HeldBy,
    out: &mut Text,
    mid_line: &mut bool,
) -> Result<(), NoMemory>
    requires { IsWishKnown table.now wish.now }
    ensures ok { OnOk result (SaysAt watch table.now (makes_wish wish.now (support_of held_by)) mid_line.old out.old mid_line.new out.new) }
    ensures err { OnErr result (SaysNothing mid_line.old out.old mid_line.new out.new) }
{
    if !is_shown(watch, WISHES) {
        return Ok(());
    }
    let text = held_text(out.allocator(), table, wish, held_by)?;
    say_line(out, mid_line, text.as_str())
}

fn held_text(
    alloc: Global,
    table: &SymTable,
    wish: &Wish,
    held_by: HeldBy,
) -> Result<Text, NoMemory>
    requires { IsWishKnown table.now wish.now }
    ensures { IfOk result (λ text. text ≡ text_of_line (piece_of table.now (makes_wish wish.now (support_of held_by)))) }
{
    let mut text = Text::from_str(alloc, "  ")?;
    show_wish(&mut text, table, wish)?;
    text.push_str(support_text(held_by))?;
    Ok(text)
}

fn support_text(held_by: HeldBy) -> &'static str
    ensures { result.now ≡ support_text (support_of held_by) }
{
    match held_by {
        HeldBy::Instance => " i",
        HeldBy::Operator => " o",
        HeldBy::Learned => " r",
    }
}
