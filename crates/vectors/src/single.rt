// Vectors of one call: a cold start, a step, a write and a reading of an image of either kind.
use crate::expected::{ANSWER_SIZE, STATE_SIZE, answer_is, state_is};
use crate::given::{Given, state_in};
use crate::part::{Parts, announced, beyond};
use image::write::Stored;
use unit::start::{Started, cold_start, default_start};
use unit::state::State;
use wire::byte::byte_at;

// Whether these bytes are a code and a state, and nothing more.
fn started_is(started: Started, s: &[u8]) -> bool {
    s.len() == 1 + STATE_SIZE && started.code == byte_at(s, 0) && state_is(started.state, s.rest(1))
}

// Whether these bytes are a state and a whole buffer, and nothing more.
fn left_is(state: State, buffer: &[u8], s: &[u8]) -> bool {
    s.len() >= STATE_SIZE && state_is(state, s) && *buffer == *s.rest(STATE_SIZE)
}

// A cold start.
pub(crate) fn start_holds(s: &[u8]) -> bool {
    started_is(cold_start(s.limits(2)), s.rest(3))
}

// A cold start with no number of tries.
pub(crate) fn default_holds(s: &[u8]) -> bool {
    started_is(default_start(byte_at(s, 0), byte_at(s, 1)), s.rest(2))
}

// A reading of an image.
pub(crate) fn load_holds<R: FnOnce(&[u8]) -> Started>(s: &[u8], read: R) -> bool
    requires { R.IsAlwaysCallable read }
{
    started_is(read(announced(s)), beyond(s))
}

// A write of an image, into a buffer of the length and the number that the vector gives.
pub(crate) fn store_holds<W: FnOnce(State, &mut [u8]) -> Stored>(s: &[u8], write: W) -> bool
    requires { W.IsAlwaysCallable write }
{
    let room = s.rest(STATE_SIZE);
    let mut bytes = [byte_at(room, 1); 256];
    let buffer = &mut bytes[..room.number_at(0)];
    let stored = write(state_in(s), buffer);
    let left = room.rest(2);
    stored.code == byte_at(left, 0)
        && stored.count == left.number_at(1)
        && left_is(stored.state, buffer, left.rest(2))
}

// A step, into such a buffer.
pub(crate) fn step_holds(s: &[u8]) -> bool {
    let record = s.rest(STATE_SIZE);
    let room = beyond(record);
    let mut bytes = [byte_at(room, 1); 256];
    let buffer = &mut bytes[..room.number_at(0)];
    let stepped = state_in(s).on_record(announced(record), buffer);
    let left = room.rest(2);
    answer_is(stepped, left) && left_is(stepped.state, buffer, left.rest(ANSWER_SIZE))
}
