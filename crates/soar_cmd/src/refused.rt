// Why a command is refused: its number, and what is shown.
ghost use Rattle.std.specs.Prelude.{◌≡◌, ◌<◌, Err, List as ListOf, length};
ghost use Rattle.soar_sym.specs.Words.{Texts};
ghost use Rattle.soar_rule.specs.Checked.{IsChecked};
ghost use Rattle.soar_rule.specs.Productions.{production_seen};
ghost use Rattle.soar_rule.specs.Symbols.{AreKnown};
ghost use Rattle.soar_lex.specs.Answers.{IsCut};
ghost use Rattle.defs_text.specs.Lexing.{Lexed, Spelled};
ghost use Rattle.defs_read.specs.PrintingConditions.{name_at};
ghost use Rattle.defs_run.specs.Stages.{Reading};
ghost use Rattle.defs_run.specs.WholeReading.{checked, unless_faulty};
ghost use Rattle.soar_cmd.specs.Answers.{GrowsOnly, IsCommandRead, IsJudged, fault_of};
ghost use Rattle.soar_cmd.specs.declared.fault.CmdFault.TheVariants as faults;

use crate::fault::{CmdFault, Shown};
use soar_lex::LexFault;
use soar_read::{ReadFault, SyntaxKind};
use soar_rule::{CheckFault, Production};
use soar_sym::Sym;

/// A refusal that shows nothing.
pub fn refused(number: u32) -> CmdFault
    ensures { result ≡ faults.Refused number Shown.Nothing }
{
    CmdFault::Refused {
        number,
        shown: Shown::Nothing,
    }
}

/// A refusal that shows a byte.
pub fn refused_at(number: u32, place: u32) -> CmdFault
    ensures { result ≡ faults.Refused number (Shown.Place place) }
{
    CmdFault::Refused {
        number,
        shown: Shown::Place(place),
    }
}

/// What stops the reading of a text with a fault.
pub fn of_lexing(fault: LexFault) -> CmdFault
    ensures { (old new : Texts) (text : Lexed) (f : Texts → ListOf Spelled → Reading) → IsCut old new text (Err fault) → GrowsOnly f
        → IsCommandRead new (unless_faulty old text f) (Err result) }
{
    match fault {
        LexFault::BadByte(place) => refused_at(12, place),
        LexFault::FloatNumber(place) => refused_at(13, place),
        LexFault::WideNumber(place) => refused_at(14, place),
        LexFault::OpenString(place) => refused_at(15, place),
        LexFault::WordsSpent => CmdFault::WordsSpent,
        LexFault::NoMemory => CmdFault::NoMemory,
    }
}

/// What stops the reading of tokens that spell no production, or whose new words find no place.
pub fn of_reading(fault: ReadFault) -> CmdFault
    ensures { result ≡ fault_of fault }
{
    match fault {
        ReadFault::SyntaxFault { place, kind } => match kind {
            SyntaxKind::Unexpected => refused_at(16, place),
            SyntaxKind::Deep => refused_at(17, place),
        },
        ReadFault::WordsSpent => CmdFault::WordsSpent,
        ReadFault::NoMemory => CmdFault::NoMemory,
    }
}

/// The refusal of a production with what its check found.
pub fn of_check(production: &Production, fault: CheckFault) -> CmdFault
    requires { IsChecked (production_seen production.now) (Err fault) }
    ensures { (words : Texts) → 0 < length words → AreKnown words production.now.vars → IsJudged words (checked words (production_seen production.now)) (Err result) }
{
    match fault {
        CheckFault::NoState => refused(20),
        CheckFault::Unbound(variable) => CmdFault::Refused {
            number: 21,
            shown: Shown::Variable(name_at(production.vars.as_slice(), variable)),
        },
        CheckFault::Unconnected(place) => CmdFault::Refused {
            number: 22,
            shown: Shown::Number(place),
        },
        CheckFault::TooMany(count) => CmdFault::Refused {
            number: 23,
            shown: Shown::Number(count),
        },
        CheckFault::TooDeep => refused(24),
        CheckFault::BadPref => refused(25),
        CheckFault::NoMemory => CmdFault::NoMemory,
    }
}

/// The name of a variable: the first word of the table where it has none.
fn name_at(vars: &[Sym], variable: u32) -> Sym
    ensures { result ≡ name_at vars.now variable }
{
    match vars.get(variable as usize) {
        Some(name) => *name,
        None => Sym::Word(0),
    }
}
