// Answers of the code held to the bytes that a vector expects.
ghost use Rattle.std.specs.Prelude.{◌<◌};

use crate::part::Parts;
use place::limits::Limits;
use place::place::{Holding, Place};
use unit::answer::Stepped;
use unit::bytes::ACTION_SIZE;
use unit::last::Last;
use unit::state::{Marks, State, Train};
use wire::byte::byte_at;

// The bytes of a state: an A2 image's after its kind.
pub const STATE_SIZE: usize = 41;

// Where the number of tries stands in them, and the last known RBC.
pub const TRIES_AT: usize = 36;

pub const LAST_AT: usize = 37;

// Its bytes before the places, and those of one place.
pub const HEAD_SIZE: usize = 8;

pub const PLACE_SIZE: usize = 7;

// The bytes of a step's answer beside its state and its actions: code, count, place and phase.
pub(crate) const ANSWER_SIZE: usize = 4;

// Whether the byte is the mark's.
pub(crate) fn mark_is(mark: bool, s: &[u8], at: usize) -> bool {
    byte_at(s, at) == u8::from(mark)
}

// Whether the first two bytes are the X numbers, and the one where the tries stand is theirs.
pub(crate) fn limits_are(limits: Limits, s: &[u8], tries_at: usize) -> bool {
    s.begins(&[limits.lowest, limits.highest]) && limits.tries == byte_at(s, tries_at)
}

// Whether bytes 2 and 3 are the level and the mission.
fn train_is(train: Train, s: &[u8]) -> bool {
    train.level == u64::from(byte_at(s, 2)) && train.mission == u64::from(byte_at(s, 3))
}

// Whether bytes 4 to 7 are the marks.
fn marks_are(marks: Marks, s: &[u8]) -> bool {
    mark_is(marks.inside, s, 4)
        && mark_is(marks.mode, s, 5)
        && mark_is(marks.manual, s, 6)
        && mark_is(marks.end, s, 7)
}

// Whether the eight bytes at the front are those of a state before its places, and its tries stand where they should.
fn head_is(state: State, s: &[u8]) -> bool {
    limits_are(state.limits, s, TRIES_AT) && train_is(state.train, s) && marks_are(state.marks, s)
}

// The bytes of a place.
fn place_bytes(place: Place) -> [u8; 7] {
    match place.holding {
        Holding::Free => [0; 7],
        Holding::Held {
            direction,
            phase,
            partner,
        } => [
            phase.number(),
            direction.number(),
            phase.tries(),
            partner.kind,
            partner.high,
            partner.middle,
            partner.low,
        ],
    }
}

// Whether the bytes at the front are those of the four places.
pub(crate) fn places_are(state: State, s: &[u8]) -> bool {
    let mut left = s;
    for place in state.places.iter() {
        if !left.begins(&place_bytes(*place)) {
            return false;
        }
        left = left.rest(PLACE_SIZE);
    }
    true
}

// Whether the four bytes at the front are those of the last known RBC.
pub(crate) fn last_is(last: Last, s: &[u8]) -> bool {
    s.begins(&match last {
        Last::Unknown => [0; 4],
        Last::Known { high, middle, low } => [1, high, middle, low],
    })
}

// Whether the 41 bytes at the front are those of a state, sound or not.
pub fn state_is(state: State, s: &[u8]) -> bool {
    head_is(state, s)
        && places_are(state, s.rest(HEAD_SIZE))
        && last_is(state.last, s.rest(LAST_AT))
}

// Whether the four bytes at the front are a step's code, count, place and phase.
pub(crate) fn answer_is(stepped: Stepped, s: &[u8]) -> bool {
    let standing = stepped.standing;
    stepped.code == byte_at(s, 0)
        && stepped.count == s.number_at(1)
        && standing.place == s.number_at(2)
        && standing.phase == byte_at(s, 3)
}

// The bytes of the actions that an answer at the front announces.
fn actions_size(s: &[u8]) -> usize
    ensures { result < 1280 }
{
    ACTION_SIZE * s.number_at(1)
}

// The bytes of an answer and its actions at the front.
pub(crate) fn sent_size(s: &[u8]) -> usize
    ensures { result < 1284 }
{
    ANSWER_SIZE + actions_size(s)
}

// Whether the bytes at the front are a step's answer and its actions, which stand at the front of a buffer.
pub(crate) fn sent_is(stepped: Stepped, buffer: &[u8], s: &[u8]) -> bool {
    let size = actions_size(s);
    answer_is(stepped, s) && buffer.front(size) == s.rest(ANSWER_SIZE).front(size)
}
