ghost use Rattle.std.specs.Prelude.{◌≡◌, ◌==◌, ◌<◌, ◌||◌, [], ◌∷◌, ◌++◌, encode_utf8, if◌then◌else◌, OnOk};
ghost use Rattle.defs_text.specs.Quotes.{escaped};
ghost use Rattle.defs_text.specs.Symbols.{barred, word_text};

use crate::bare::stands_bare;
use soar_sym::Text;
use std::alloc::AllocError;

/// Appends a word's text, in bars where it would not be read back bare.
pub fn push_word(out: &mut Text, text: &str) -> Result<(), AllocError>
    ensures { OnOk result (out.new ≡ out.old ++ word_text text.now) }
{
    if stands_bare(text.as_bytes()) {
        out.push_str(text)
    } else {
        push_barred(out, text)
    }
}

fn push_barred(out: &mut Text, text: &str) -> Result<(), AllocError>
    ensures { OnOk result (out.new ≡ out.old ++ barred text.now) }
{
    out.push('|')?;
    push_escaped(out, '|', text)?;
    out.push('|')
}

/// Appends a text as it stands between two of these ASCII letters.
pub fn push_escaped(out: &mut Text, quote: char, text: &str) -> Result<(), AllocError>
    requires { quote < 128 }
    ensures { OnOk result (out.new ≡ out.old ++ escaped quote text.now) }
{
    'letters: for letter in text.chars() {
        push_letter(out, quote, letter)?;
    }
    Ok(())
}

/// Appends a letter as it stands between two quotes.
fn push_letter(out: &mut Text, quote: char, letter: char) -> Result<(), AllocError>
    requires { quote < 128 }
    ensures { OnOk result (out.new ≡ out.old ++ escaped quote (encode_utf8 letter)) }
{
    push_backslash(out, quote, letter)?;
    out.push(letter)
}

/// Appends the backslash that stands before a quote and before a backslash.
fn push_backslash(out: &mut Text, quote: char, letter: char) -> Result<(), AllocError>
    ensures { OnOk result (out.new ≡ out.old ++ (if (letter == quote) || (letter == 92) then 92 ∷ [] else [])) }
{
    if letter == quote || letter == '\\' {
        out.push('\\')
    } else {
        Ok(())
    }
}
