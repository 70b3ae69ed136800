//! That the reading of productions is exact against their grammar, and that printed productions are read back.
#![tactic(auto)]

ghost use Rattle.reading_laws.specs.Later as later;
ghost use Rattle.reading_laws.specs.Laws as laws;
ghost use Rattle.reading_laws.specs.WayBack as back;

use rule_laws::checked_is_in_order;

/// What is read of tokens is spelled by them, what is spelled is read, and what is refused is
/// refused at the first token with which no production goes on.
pub fn reading_is_exact()
    ensures spelled { laws.ReadIsSpelled }
    ensures read { laws.SpelledIsRead }
    ensures refused { laws.RefusedIsFirst }
{}

/// The text that a production is printed as is read as that production again, with its variables
/// under the same numbers, and with no new word but those of its tokens. What was read of a text is
/// such a production. What was checked after that is printed as a text that is read and checked to it,
/// its variables compared by name.
pub fn printing_reads_back()
    ensures printed { back.PrintedIsRead }
    ensures printable { back.ReadIsPrintable }
    ensures checked { back.CheckedIsRead }
{
    checked_is_in_order();
}

/// Words join a table at its end. With each table that begins with the words that were there once a
/// text was read, the production can be printed still, its text is the same, and this text is read
/// back to it; and likewise with what the check gives for it.
pub fn later_tables_read_back()
    ensures printable { later.ReadStaysPrintable }
    ensures read { later.ReadIsReadLater }
    ensures checked { later.CheckedIsReadLater }
{
    checked_is_in_order();
}
