ghost use Rattle.std.specs.Prelude.{◌≡◌, codes};
ghost use Rattle.defs_text.specs.Bytes.{is_among, is_blank, is_capital, is_digit, is_mark, is_run_byte};

/// Space, tab, carriage return, form feed and newline.
pub fn blank(byte: u8) -> bool
    ensures { result ≡ is_blank byte }
{
    byte == b' ' || byte == b'\t' || byte == b'\r' || byte == b'\x0c' || byte == b'\n'
}

/// `0` to `9`.
pub fn digit(byte: u8) -> bool
    ensures { result ≡ is_digit byte }
{
    b'0' <= byte && byte <= b'9'
}

/// `A` to `Z`.
pub fn capital(byte: u8) -> bool
    ensures { result ≡ is_capital byte }
{
    b'A' <= byte && byte <= b'Z'
}

/// The bytes of words, numbers, variables and signs.
pub fn run_byte(byte: u8) -> bool
    ensures { result ≡ is_run_byte byte }
{
    byte.is_ascii_lowercase()
        || byte.is_ascii_uppercase()
        || byte.is_ascii_digit()
        || run_sign(byte)
}

/// The bytes of runs that are no letters and no digits.
fn run_sign(byte: u8) -> bool
    ensures { result ≡ is_among (codes "$%&*+-/:<=>?_") byte }
{
    b"$%&*+-/:<=>?_".contains(&byte)
}

/// The tokens of one byte.
pub fn mark(byte: u8) -> bool
    ensures { result ≡ is_mark byte }
{
    b"(){}^.!~".contains(&byte)
}
