// The first run of a command.
ghost use Rattle.std.specs.Prelude.{◌≡◌, ◌+◌, ◌≤◌, drop, not, length};
ghost use Rattle.std.specs.List.{prefix_len};
ghost use Rattle.defs_run.specs.Commands.{ends_first_run, first_run};

use soar_lex::blank;

/// The bytes of a command up to a blank, `{` or the end.
pub fn first_run(text: &[u8]) -> &[u8]
    ensures { result.now ≡ first_run text.now }
{
    let (run, _) = text.split_at(run_length(text));
    run
}

/// The bytes behind it, and their place.
pub fn behind_first_run(text: &[u8]) -> (usize, &[u8])
    ensures place { result.0 ≡ length (first_run text.now) }
    ensures behind { result.1.now ≡ drop result.0 text.now }
    ensures within { result.0 + length result.1.now ≡ length text.now }
{
    let count = run_length(text);
    let (_, behind) = text.split_at(count);
    (count, behind)
}

fn run_length(text: &[u8]) -> usize
    ensures count { result ≡ prefix_len (λ b. not (ends_first_run b)) text.now }
    ensures within { result ≤ length text.now }
{
    text.iter().take_while(|b| !ends_first_run(**b)).count()
}

fn ends_first_run(byte: u8) -> bool
    ensures { result ≡ ends_first_run byte }
{
    blank(byte) || byte == b'{'
}
