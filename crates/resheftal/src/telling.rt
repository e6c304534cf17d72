// The commands `shunter` and `sets`: what the shunter, or both engines, do with a log, told a piece at a time.
use crate::files::{Failed, front};
use crate::say::{Status, conclude, say};
use place::limits::Limits;
use streams::buffer;
use tools::both::{Comparing, both_next_text, both_text};
use tools::shunted::{Telling, shunter_next_text, shunter_text};

// The last piece that was told: how long it is, whether another follows, and whether the log is accepted.
#[derive(Clone, Copy)]
struct Piece {
    length: usize,
    more: bool,
    accepted: bool,
}

// A log told a piece at a time.
trait Pieces: Copy {
    // The piece that was told last.
    fn last(self) -> Piece;

    // With the piece that follows.
    fn next(self, log: &[u8], out: &mut [u8]) -> Self;
}

impl Pieces for Telling {
    fn last(self) -> Piece {
        Piece {
            length: self.length,
            more: self.more,
            accepted: self.accepted,
        }
    }

    fn next(self, log: &[u8], out: &mut [u8]) -> Telling {
        shunter_next_text(self, log, out)
    }
}

impl Pieces for Comparing {
    fn last(self) -> Piece {
        Piece {
            length: self.length,
            more: self.more,
            accepted: self.accepted,
        }
    }

    fn next(self, log: &[u8], out: &mut [u8]) -> Comparing {
        both_next_text(self, log, out)
    }
}

// Says the pieces of a log, the first of which stands in a room. Each record has a byte, so that there are no more lines than bytes; one
// turn more tells the stop.
fn say_pieces<P: Pieces>(
    rt: &HostRuntime,
    first: P,
    log: &[u8],
    out: &mut [u8],
) -> Result<Status, Failed> {
    let mut pieces = first;
    for _ in 0..=log.len() {
        let piece = pieces.last();
        if !piece.more {
            break;
        }
        say(rt, front(out, piece.length))?;
        pieces = pieces.next(log, out);
    }
    let piece = pieces.last();
    if piece.more {
        return Err(Failed);
    }
    conclude(rt, piece.accepted, front(out, piece.length))
}

// Tells what the shunter does with a log.
pub(crate) fn shunt(rt: &HostRuntime, limits: Limits, log: &[u8]) -> Result<Status, Failed> {
    let mut out = buffer();
    let first = shunter_text(limits, log, &mut out);
    say_pieces(rt, first, log, &mut out)
}

// Tells what both engines do with a log.
pub(crate) fn compare(rt: &HostRuntime, limits: Limits, log: &[u8]) -> Result<Status, Failed> {
    let mut out = buffer();
    let first = both_text(limits, limits, log, &mut out);
    say_pieces(rt, first, log, &mut out)
}
