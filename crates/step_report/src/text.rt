// Texts that productions write, which are said at every watch level.
ghost use Rattle.std.specs.Prelude.{◌≡◌, ◌++◌, OnOk};
ghost use Rattle.defs_soar.specs.Trace.{is_mid_after};

use soar_sym::Text;
use std::alloc::AllocError;

/// Appends a text.
pub fn say_text(text: &str, out: &mut Text, mid_line: &mut bool) -> Result<(), AllocError>
    ensures out { OnOk result (out.new ≡ out.old ++ text.now) }
    ensures mid_line { OnOk result (mid_line.new ≡ is_mid_after mid_line.old text.now) }
{
    out.push_str(text)?;
    *mid_line = is_mid_after(*mid_line, text.as_bytes());
    Ok(())
}

/// Whether text ends in the middle of a line behind more bytes.
fn is_mid_after(mid_line: bool, bytes: &[u8]) -> bool
    ensures { result ≡ is_mid_after mid_line bytes.now }
{
    match bytes.last() {
        Some(byte) => *byte != b'\n',
        None => mid_line,
    }
}
