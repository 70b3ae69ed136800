// What is said where a session stops.
ghost use Rattle.std.specs.Prelude.{◌≡◌, ◌++◌, string_bytes, IfOk, OnErr, OnOk};
ghost use Rattle.defs_soar.specs.Limits.{limit_of, limit_text, name_of};
ghost use Rattle.defs_soar.specs.Trace.{line_text};
ghost use Rattle.session_parts.specs.Stopping.{SaysStop};

use defs_soar::Which;
use soar_settle::Stop;
use soar_sym::{NoMemory, Text};
use std::alloc::{AllocError, Global};

/// Appends what was said before a limit, and the line of the limit; nothing where there is no memory.
pub fn say_stop(stop: Stop, mid_line: bool, said: &mut Text, text: &mut Text) -> Stop
    ensures { SaysStop stop mid_line said.old text.old text.new result }
{
    match stop {
        Stop::Limit(limit) => match say_limit(limit, mid_line, said, text) {
            Ok(()) => Stop::Limit(limit),
            Err(_) => Stop::NoMemory,
        },
        Stop::NoMemory => Stop::NoMemory,
    }
}

fn say_limit(limit: Which, mid_line: bool, said: &mut Text, text: &mut Text) -> Result<(), NoMemory>
    ensures ok { OnOk result (text.new ≡ text.old ++ (said.old ++ line_text mid_line (limit_text limit))) }
    ensures err { OnErr result (text.new ≡ text.old) }
{
    let line = limit_line(text.allocator(), mid_line, limit)?;
    said.push_str(line.as_str())?;
    text.push_str(said.as_str())?;
    Ok(())
}

/// The line of a limit that ended the program.
fn limit_line(alloc: Global, mid_line: bool, limit: Which) -> Result<String, AllocError>
    ensures { IfOk result (λ text. string_bytes text ≡ line_text mid_line (limit_text limit)) }
{
    let name = limit_name(limit);
    let number = limit_number(limit);
    if mid_line {
        Ok(format!(in alloc; "\nlimit {name} {number}\n")?)
    } else {
        Ok(format!(in alloc; "limit {name} {number}\n")?)
    }
}

fn limit_name(limit: Which) -> &'static str
    ensures { result.now ≡ name_of limit }
{
    match limit {
        Which::Identifiers => "identifiers",
        Which::Words => "words",
        Which::Preferences => "preferences",
        Which::Elements => "elements",
        Which::Tags => "tags",
        Which::Counts => "counts",
    }
}

fn limit_number(limit: Which) -> u64
    ensures { result ≡ limit_of limit }
{
    match limit {
        Which::Identifiers | Which::Words | Which::Tags => 4_294_967_295,
        Which::Preferences => 1_000_000,
        Which::Elements => 4_000_000,
        Which::Counts => 18_446_744_073_709_551_615,
    }
}
