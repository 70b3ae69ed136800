// The input, read piece by piece.
ghost use Rattle.std.specs.Prelude.{◌≡◌, ◌+◌, ◌-◌, ◌^◌, ◌<◌, ◌≤◌, false, length, Ok, Err, IfOk, IfSome, IsErr, OnErr, OnOk};
ghost use Rattle.command_runs.specs.Reading.{FeedsPiece, InputCause, IsFedWith, ReadsMore, is_end};

use soar_edge::{Cutter, Source};

/// The most bytes of input that are run, 64 MiB.
const MOST_INPUT: usize = 67_108_864;

/// The most bytes of one read.
const ROOM: usize = 4096;

/// Why the input wasn't read.
#[derive(Clone, Copy, PartialEq, Eq)]
pub enum InputFault {
    Failed,
    NoMemory,
}

/// What a read of the input brought.
#[derive(Clone, Copy, PartialEq, Eq)]
pub enum Came {
    /// Some bytes, all within the first 64 MiB.
    Bytes,
    /// Some bytes, of which one is behind the first 64 MiB.
    TooMany,
    /// No bytes, since it has ended.
    Nothing,
}

/// Reads some more of the input, and feeds it to a cutter: what is within the first 64 MiB. `taken` counts what was fed.
pub fn feed_more<I: Source>(
    input: &mut I,
    cutter: &mut Cutter,
    taken: &mut usize,
) -> Result<Came, InputFault>
    requires open { cutter.old.closed ≡ false }
    requires count { cutter.old.fed ≡ taken.old }
    requires few { taken.old ≤ 2 ^ 26 }
    ensures bytes { IfSome (I.left input.old) (λ left. ReadsMore left (I.left input.new) cutter.old cutter.new taken.old taken.new result) }
    ensures few { taken.new ≤ 2 ^ 26 }
    ensures count { OnOk result (cutter.new.fed ≡ taken.new) }
    ensures closed { IfOk result (λ came. cutter.new.closed ≡ is_end came) }
    ensures grown { result ≡ Ok Came.Bytes → taken.old < taken.new }
    ensures cause { InputCause (I.faults input.old) (I.faults input.new) result }
{
    let mut room = [0u8; ROOM];
    match input.take(&mut room) {
        Ok(count) => {
            let (piece, _) = room.as_slice().split_at(count);
            feed_piece(piece, cutter, taken)
        }
        Err(_) => Err(InputFault::Failed),
    }
}

/// Feeds what a read brought, or a front of it where all would be too much, or says that there is no more.
fn feed_piece(piece: &[u8], cutter: &mut Cutter, taken: &mut usize) -> Result<Came, InputFault>
    requires open { cutter.old.closed ≡ false }
    requires count { cutter.old.fed ≡ taken.old }
    requires few { taken.old ≤ 2 ^ 26 }
    ensures bytes { FeedsPiece piece.now cutter.old cutter.new taken.old taken.new result }
    ensures few { taken.new ≤ 2 ^ 26 }
    ensures count { OnOk result (cutter.new.fed ≡ taken.new) }
    ensures closed { IfOk result (λ came. cutter.new.closed ≡ is_end came) }
    ensures grown { result ≡ Ok Came.Bytes → taken.old < taken.new }
    ensures memory { IsErr result → result ≡ Err InputFault.NoMemory }
{
    if piece.is_empty() {
        cutter.close();
        return Ok(Came::Nothing);
    }
    let within = MOST_INPUT - *taken;
    if piece.len() > within {
        let (front, _) = piece.split_at(within);
        feed_front(front, cutter, taken)?;
        return Ok(Came::TooMany);
    }
    feed_front(piece, cutter, taken)?;
    Ok(Came::Bytes)
}

/// Feeds some bytes, and counts them.
fn feed_front(front: &[u8], cutter: &mut Cutter, taken: &mut usize) -> Result<(), InputFault>
    requires open { cutter.old.closed ≡ false }
    requires count { cutter.old.fed ≡ taken.old }
    requires few { taken.old + length front.now ≤ 2 ^ 26 }
    ensures fed { OnOk result (IsFedWith cutter.old cutter.new front.now) }
    ensures grown { OnOk result (taken.new ≡ taken.old + length front.now) }
    ensures same { OnErr result (taken.new ≡ taken.old) }
    ensures memory { IsErr result → result ≡ Err InputFault.NoMemory }
{
    match cutter.feed(front) {
        Ok(()) => {
            *taken += front.len();
            Ok(())
        }
        Err(_) => Err(InputFault::NoMemory),
    }
}
