// Blanks at the ends of bytes.
ghost use Rattle.std.specs.Prelude.{◌≡◌, ◌≤◌, length};
ghost use Rattle.std.specs.List.{prefix_len};
ghost use Rattle.defs_text.specs.Bytes.{is_blank};
ghost use Rattle.defs_run.specs.WholeReading.{without_end_blanks, without_front_blanks};

use soar_lex::blank;

/// How many blanks stand in front.
pub fn front_blanks(bytes: &[u8]) -> usize
    ensures count { result ≡ prefix_len is_blank bytes.now }
    ensures within { result ≤ length bytes.now }
{
    bytes.iter().take_while(|b| blank(**b)).count()
}

/// The bytes from the first that is no blank.
pub fn without_front_blanks(bytes: &[u8]) -> &[u8]
    ensures rest { result.now ≡ without_front_blanks bytes.now }
    ensures within { length result.now ≤ length bytes.now }
{
    let (_, rest) = bytes.split_at(front_blanks(bytes));
    rest
}

/// The bytes up to the last that is no blank.
pub fn without_end_blanks(bytes: &[u8]) -> &[u8]
    ensures rest { result.now ≡ without_end_blanks bytes.now }
    ensures within { length result.now ≤ length bytes.now }
{
    let mut rest = bytes;
    'blanks: while let Some((last, front)) = rest.split_last() {
        if !blank(*last) {
            break;
        }
        rest = front;
    }
    rest
}
