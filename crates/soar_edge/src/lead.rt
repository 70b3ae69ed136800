// The blanks and comments before a command.
ghost use Rattle.std.specs.Prelude.{◌≡◌, ◌==◌};
ghost use Rattle.std.specs.List.{position};
ghost use Rattle.soar_edge.specs.Cutting.{is_space};
ghost use Rattle.soar_edge.specs.Leading.{IsLead};
ghost use Rattle.soar_edge.specs.Scanning.{newlines};

/// What stands behind blanks and comments.
#[derive(Clone, Copy)]
pub enum Lead {
    /// There is nothing else.
    Nothing,
    /// A comment whose newline has not come, behind so many bytes.
    Comment(usize),
    /// A command, behind so many bytes.
    Command(usize),
}

/// Looks past the blanks and comments in front.
#[tactic(auto, using(crate::proofs::SkipLemmas::skips_space, crate::proofs::SkipLemmas::leads_to_command))]
pub fn lead_of(bytes: &[u8]) -> Lead
    ensures { IsLead bytes.now result }
{
    let mut size = 0;
    'bytes: while size < bytes.len() {
        let byte = bytes[size];
        if byte == b'#' {
            match line_size(&bytes[size..]) {
                Some(more) => size += more,
                None => return Lead::Comment(size),
            }
        } else if is_space(byte) {
            size += 1;
        } else {
            return Lead::Command(size);
        }
    }
    Lead::Nothing
}

/// How many newlines.
#[tactic(auto, using(crate::proofs::SkipLemmas::newlines_count))]
pub fn newlines(bytes: &[u8]) -> usize
    ensures { result ≡ newlines bytes.now }
{
    bytes.iter().filter(|byte| **byte == b'\n').count()
}

/// How many bytes stand before the first newline.
fn line_size(bytes: &[u8]) -> Option<usize>
    ensures { result ≡ position (λ b. b == 10) bytes.now }
{
    bytes.iter().position(|byte| *byte == b'\n')
}

/// Space, tab, carriage return, form feed and newline.
fn is_space(byte: u8) -> bool
    ensures { result ≡ is_space byte }
{
    byte == b' ' || byte == b'\t' || byte == b'\r' || byte == b'\x0c' || byte == b'\n'
}
