// Why a result is justified and no chunk is learned.
ghost use Rattle.std.specs.Prelude.{◌≡◌, ◌++◌, decimal, string_bytes, IfOk};
ghost use Rattle.soar_sym.specs.Words.{IsKnown};
ghost use Rattle.defs_soar.specs.Trace.{cause_text};
ghost use Rattle.defs_soar.specs.declared.learning.Cause.TheVariants as cause;
ghost use Rattle.chain_texts.specs.Events.{IsCauseKnown};

use defs_soar::Cause;
use soar_sym::{NoMemory, Sym, SymTable};
use std::alloc::{AllocError, Global};
use trace_lines::symbol_text;

/// A cause, as `local negation in 7`.
pub fn cause_text(alloc: Global, table: &SymTable, cause: Cause) -> Result<String, NoMemory>
    requires { IsCauseKnown table.now cause }
    ensures { IfOk result (λ text. string_bytes text ≡ cause_text table.now cause) }
{
    match cause {
        Cause::NoGrounds => Ok(plain(alloc, "no grounds")?),
        Cause::Off => Ok(plain(alloc, "off")?),
        Cause::LocalNegation(firing) => Ok(counted(alloc, "local negation in ", firing)?),
        Cause::Quiescence(firing) => Ok(counted(alloc, "quiescence in ", firing)?),
        Cause::Ungrounded(symbol) => ungrounded(alloc, table, symbol),
        Cause::TooLarge(size) => Ok(counted(alloc, "too large ", u64::from(size))?),
        Cause::TooMany(count) => Ok(counted(alloc, "too many ", u64::from(count))?),
    }
}

fn plain(alloc: Global, words: &str) -> Result<String, AllocError>
    ensures { IfOk result (λ text. string_bytes text ≡ words.now) }
{
    format!(in alloc; "{words}")
}

fn counted(alloc: Global, words: &str, number: u64) -> Result<String, AllocError>
    ensures { IfOk result (λ text. string_bytes text ≡ words.now ++ decimal number) }
{
    format!(in alloc; "{words}{number}")
}

fn ungrounded(alloc: Global, table: &SymTable, symbol: Sym) -> Result<String, NoMemory>
    requires { IsKnown table.now symbol }
    ensures { IfOk result (λ text. string_bytes text ≡ cause_text table.now (cause.Ungrounded symbol)) }
{
    let symbol = symbol_text(alloc, table, symbol)?;
    let symbol = symbol.as_str();
    Ok(format!(in alloc; "ungrounded {symbol}")?)
}
