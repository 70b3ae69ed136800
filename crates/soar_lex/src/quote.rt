// Texts in bars and strings in quotes.
ghost use Rattle.std.specs.Prelude.{◌≡◌, ◌<◌, ◌≤◌, length, Some, string_bytes, IfErr, IfOk, IfSome, MatchResult};
ghost use Rattle.std.specs.Str.{IsUtf8};
ghost use Rattle.defs_text.specs.Quotes.{bad_escape, closing, fault_inside, lesser, meant, no_utf8};

use defs_text::LexFault;
use std::alloc::{AllocError, Global};

/// How many bytes stand before the closing one.
#[tactic(auto, using(crate::proofs::QuoteLemmas::closing_behind, crate::proofs::QuoteLemmas::closing_past))]
pub fn closing(quote: u8, bytes: &[u8]) -> Option<usize>
    ensures count { result ≡ closing quote bytes.now }
    ensures within { IfSome result (λ count. count < length bytes.now) }
{
    let mut behind = false;
    'bytes: for (at, byte) in bytes.iter().enumerate() {
        if behind {
            behind = false;
        } else if *byte == quote {
            return Some(at);
        } else {
            behind = *byte == b'\\';
        }
    }
    None
}

/// The text between bars or quotes, or the place of the first byte that may not stand there.
pub fn checked<'a>(quote: u8, inside: &'a [u8]) -> Result<&'a str, usize>
    ensures text { MatchResult result
        (λ text. (text.now ≡ inside.now) × (fault_inside quote inside.now ≡ None))
        (λ at. (fault_inside quote inside.now ≡ Some at) × (at < length inside.now)) }
{
    let escape = bad_escape(quote, inside);
    match utf8(inside) {
        Ok(text) => match escape {
            None => Ok(text),
            Some(at) => Err(at),
        },
        Err(at) => Err(lesser(escape, at)),
    }
}

/// The text that a text between bars or quotes means.
pub fn meant(alloc: Global, inside: &str) -> Result<String, LexFault>
    ensures text { IfOk result (λ text. string_bytes text ≡ meant inside.now) }
    ensures err { IfErr result (λ fault. fault ≡ LexFault.NoMemory) }
{
    match unescaped(alloc, inside.as_bytes()) {
        Ok(bytes) => Ok(owned(bytes)),
        Err(_) => Err(LexFault::NoMemory),
    }
}

/// UTF-8 as a text.
fn owned(bytes: Vec<u8>) -> String
    requires { IsUtf8 bytes.items }
    ensures { string_bytes result ≡ bytes.items }
{
    match String::from_utf8(bytes) {
        Ok(text) => text,
        Err(_) => unreachable!(),
    }
}

/// The bytes without the backslashes that take the byte behind them as it is.
fn unescaped(alloc: Global, inside: &[u8]) -> Result<Vec<u8>, AllocError>
    ensures { IfOk result (λ bytes. bytes.items ≡ meant inside.now) }
{
    let mut out = Vec::new(alloc);
    let mut behind = false;
    'bytes: for byte in inside {
        if !behind && *byte == b'\\' {
            behind = true;
        } else {
            out.push(*byte)?;
            behind = false;
        }
    }
    Ok(out)
}

/// The place of the first backslash behind which neither the closing byte nor a backslash stands.
fn bad_escape(quote: u8, bytes: &[u8]) -> Option<usize>
    ensures place { result ≡ bad_escape quote bytes.now }
    ensures within { IfSome result (λ at. at < length bytes.now) }
{
    let mut behind = false;
    'bytes: for (at, byte) in bytes.iter().enumerate() {
        if !behind {
            behind = *byte == b'\\';
        } else if *byte == quote || *byte == b'\\' {
            behind = false;
        } else {
            return Some(at - 1);
        }
    }
    None
}

/// The bytes as a text, or the place of the first byte that is no UTF-8.
#[tactic(auto, using(crate::proofs::QuoteLemmas::text_has_no_fault))]
fn utf8(bytes: &[u8]) -> Result<&str, usize>
    ensures { MatchResult result
        (λ text. (text.now ≡ bytes.now) × (no_utf8 bytes.now ≡ None))
        (λ at. (no_utf8 bytes.now ≡ Some at) × (at < length bytes.now)) }
{
    match std::str::from_utf8(bytes) {
        Ok(text) => Ok(text),
        Err(error) => Err(error.valid_up_to()),
    }
}

fn lesser(escape: Option<usize>, at: usize) -> usize
    ensures least { Some result ≡ lesser escape (Some at) }
    ensures below { result ≤ at }
{
    match escape {
        Some(other) if other <= at => other,
        _ => at,
    }
}
