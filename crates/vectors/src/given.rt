// The state that a vector gives: 41 bytes, an A2 image's after its kind, sound or not.
ghost use Rattle.std.specs.Prelude.{◌≡◌, ◌≢◌};
ghost use Rattle.wire.specs.Bytes.{byte};
ghost use Rattle.place.specs.declared.place.Direction.TheVariants.{Outgoing, Incoming};

use crate::expected::{HEAD_SIZE, LAST_AT, PLACE_SIZE, TRIES_AT};
use crate::part::Parts;
use place::limits::Limits;
use place::phase::Phase;
use place::place::{Direction, Place};
use record::partner::Partner;
use unit::last::Last;
use unit::state::{Marks, State, Train};
use wire::byte::byte_at;

// What a vector gives, at the front of its bytes.
pub trait Given {
    // The limits: two X numbers, and the number of tries where it stands.
    fn limits(self, tries_at: usize) -> Limits;

    // The partner in four bytes.
    fn partner(self) -> Partner;

    // The direction in the byte at a place: 0 outgoing, else incoming.
    fn direction_at(self, at: usize) -> Direction;
}

impl Given for &[u8] {
    fn limits(self, tries_at: usize) -> Limits
        ensures lowest { result.lowest ≡ byte self.now 0 }
        ensures highest { result.highest ≡ byte self.now 1 }
        ensures tries { result.tries ≡ byte self.now tries_at }
    {
        Limits {
            lowest: byte_at(self, 0),
            highest: byte_at(self, 1),
            tries: byte_at(self, tries_at),
        }
    }

    fn partner(self) -> Partner
        ensures kind { result.kind ≡ byte self.now 0 }
        ensures high { result.high ≡ byte self.now 1 }
        ensures middle { result.middle ≡ byte self.now 2 }
        ensures low { result.low ≡ byte self.now 3 }
    {
        Partner {
            kind: byte_at(self, 0),
            high: byte_at(self, 1),
            middle: byte_at(self, 2),
            low: byte_at(self, 3),
        }
    }

    fn direction_at(self, at: usize) -> Direction
        ensures outgoing { byte self.now at ≡ 0 → result ≡ Outgoing }
        ensures incoming { byte self.now at ≢ 0 → result ≡ Incoming }
    {
        if byte_at(self, at) == 0 {
            Direction::Outgoing
        } else {
            Direction::Incoming
        }
    }
}

// The phase of this number, with so many tries.
pub(crate) fn phase_in(number: u8, tries: u8) -> Phase {
    match number {
        1 => Phase::Connecting(tries),
        2 => Phase::Contacting(tries),
        3 => Phase::Open,
        4 => Phase::Lost(tries),
        _ => Phase::Ending(tries),
    }
}

// The place in seven bytes.
fn place_in(s: &[u8]) -> Place {
    let phase = byte_at(s, 0);
    if phase == 0 {
        return Place::free();
    }
    let partner = s.rest(3).partner();
    Place::held(s.direction_at(1), phase_in(phase, byte_at(s, 2)), partner)
}

fn train_in(s: &[u8]) -> Train {
    Train {
        level: u64::from(byte_at(s, 2)),
        mission: u64::from(byte_at(s, 3)),
    }
}

fn marks_in(s: &[u8]) -> Marks {
    Marks {
        inside: byte_at(s, 4) == 1,
        mode: byte_at(s, 5) == 1,
        manual: byte_at(s, 6) == 1,
        end: byte_at(s, 7) == 1,
    }
}

// The last known RBC in four bytes; none where the first is 0.
pub(crate) fn last_in(s: &[u8]) -> Last {
    if byte_at(s, 0) == 0 {
        return Last::Unknown;
    }
    Last::Known {
        high: byte_at(s, 1),
        middle: byte_at(s, 2),
        low: byte_at(s, 3),
    }
}

// The state in 41 bytes, sound or not.
pub fn state_in(s: &[u8]) -> State {
    let places = s.rest(HEAD_SIZE);
    State {
        limits: s.limits(TRIES_AT),
        train: train_in(s),
        marks: marks_in(s),
        places: [0, PLACE_SIZE, 2 * PLACE_SIZE, 3 * PLACE_SIZE].map(|at| place_in(places.rest(at))),
        last: last_in(s.rest(LAST_AT)),
    }
}
