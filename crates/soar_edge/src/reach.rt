// How far the command in front reaches.
ghost use Rattle.std.specs.Prelude.{◌≡◌};
ghost use Rattle.soar_edge.specs.Reaching.{IsReach};
ghost use Rattle.soar_edge.specs.Scanning.{IsScan};

use crate::scan::Scan;

/// The most bytes of a command: 1 MiB.
const MOST_BYTES: usize = 1 << 20;

/// How far the command in front reaches.
#[derive(Clone, Copy)]
pub enum Reach {
    /// It ends behind so many bytes.
    Ends(usize),
    /// All of its bytes were scanned, and it goes on behind them.
    GoesOn(Scan),
    /// It has more than 1 MiB, and was scanned so far.
    TooLong(Scan),
}

/// Scans the command in front further, up to where it ends or is too long. `closed`: the stream ends behind these bytes.
#[tactic(auto, using(crate::proofs::ExtentLemmas::reach_ends, crate::proofs::ExtentLemmas::is_scan_past, crate::proofs::ExtentLemmas::reach_long, crate::proofs::ExtentLemmas::reach_closed, crate::proofs::ExtentLemmas::reach_open))]
pub fn scan_on(front: &[u8], scan: Scan, closed: bool) -> Reach
    requires { IsScan front.now scan }
    ensures { IsReach front.now closed result }
{
    let most = front.len().min(MOST_BYTES + 1);
    let mut scan = scan;
    'bytes: while scan.size < most {
        let byte = front[scan.size];
        if scan.is_end(byte) {
            return Reach::Ends(scan.size);
        }
        scan = scan.past(byte);
    }
    if scan.size > MOST_BYTES {
        Reach::TooLong(scan)
    } else if closed && scan.ends_there() {
        Reach::Ends(scan.size)
    } else {
        Reach::GoesOn(scan)
    }
}
