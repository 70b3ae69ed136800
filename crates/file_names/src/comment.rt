// Comments, outside of bars and strings.
ghost use Rattle.std.specs.Prelude.{◌≡◌, ◌≤◌, length, take};
ghost use Rattle.soar_edge.specs.Cutting.{is_comment, open_text};
ghost use Rattle.soar_edge.specs.Scanning.{inside_of};
ghost use Rattle.defs_run.specs.WholeReading.{before_comment};

use soar_edge::Inside;

/// The bytes before a comment.
pub fn before_comment(bytes: &[u8]) -> &[u8]
    ensures front { result.now ≡ before_comment open_text bytes.now }
    ensures within { length result.now ≤ length bytes.now }
{
    let (front, _) = bytes.split_at(comment_place(bytes));
    front
}

/// Where a comment begins, or how many bytes there are.
fn comment_place(bytes: &[u8]) -> usize
    ensures front { take result bytes.now ≡ before_comment open_text bytes.now }
    ensures within { result ≤ length bytes.now }
{
    let mut inside = Inside::OpenText;
    let mut place = 0;
    'bytes: for byte in bytes {
        inside = inside.after(*byte);
        if is_comment(inside) {
            break;
        }
        place += 1;
    }
    place
}

fn is_comment(inside: Inside) -> bool
    ensures { result ≡ is_comment (inside_of inside) }
{
    matches!(inside, Inside::Comment)
}
