// The name of a file in a command.
ghost use Rattle.std.specs.Prelude.{◌≡◌, ◌≤◌, ◌+◌, ◌^◌, Err, IfErr, IfOk, Ok, length};
ghost use Rattle.defs_run.specs.Orders.{source};
ghost use Rattle.defs_run.specs.WholeReading.{file_name, name_start, source_order};
ghost use Rattle.file_names.specs.Answers.{refusal_of};

use crate::blanks::{front_blanks, without_end_blanks, without_front_blanks};
use crate::comment::before_comment;
use crate::word::behind_first_run;

/// Why a command names no file: the name has a byte, at this place of the command, that is not UTF-8, or it is empty.
#[derive(Clone, Copy)]
pub enum NameFault {
    BadByte(u32),
    Empty,
}

/// The name behind a command's word: the bytes up to a comment, without the blanks at their ends.
pub fn file_name(text: &[u8]) -> Result<&str, NameFault>
    requires { length text.now ≤ 2 ^ 26 }
    ensures name { IfOk result (λ name. source_order text.now (file_name text.now) ≡ Ok (source name.now)) }
    ensures fault { IfErr result (λ fault. source_order text.now (file_name text.now) ≡ Err (refusal_of fault)) }
{
    let name = name_bytes(text);
    match str::from_utf8(name) {
        Ok(name) if name.is_empty() => Err(NameFault::Empty),
        Ok(name) => Ok(name),
        Err(fault) => Err(NameFault::BadByte((name_start(text) + fault.valid_up_to()) as u32)),
    }
}

/// The bytes of the name.
fn name_bytes(text: &[u8]) -> &[u8]
    ensures name { result.now ≡ file_name text.now }
    ensures within { length result.now ≤ length text.now }
{
    let (_, behind) = behind_first_run(text);
    without_end_blanks(without_front_blanks(before_comment(behind)))
}

/// Where the name begins.
fn name_start(text: &[u8]) -> usize
    ensures place { result ≡ name_start text.now }
    ensures within { result ≤ length text.now }
{
    let (place, behind) = behind_first_run(text);
    place + front_blanks(behind)
}
