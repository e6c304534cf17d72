// A vector of marks: limits, a log, and what is expected.
use crate::judging::limits_of;
use crate::log::{asked, expand};
use crate::room::{lent, room_is};
use image::write::write_a2;
use marks::build::{Marked, build, extend};
use marks::lookup::look_up;
use place::limits::Limits;
use streams::large_buffer;
use tools::text::put;
use unit::state::State;
use vectors::part::Parts;
use wire::byte::byte_at;

// The operations.
const BUILD: u8 = 1;

const EXTEND: u8 = 2;

const LOOK_UP: u8 = 3;

// Whether an answer has the code and the number of marks that stand at the front.
fn marked_is(marked: Marked, s: &[u8]) -> bool {
    marked.code == byte_at(s, 0) && marked.marks == s.short_at(1)
}

// Building, behind the room's length: the code, the count, the marks.
fn built_is(limits: Limits, log: &[u8], s: &[u8], room: &mut [u8]) -> bool {
    marked_is(build(limits, log, room), s) && room_is(room, s.rest(3))
}

// Extending: how many are held, the room's length, what stands at its front, the code, the count, the new marks.
fn extended_is(limits: Limits, log: &[u8], s: &[u8], room: &mut [u8]) -> bool {
    let bytes = s.rest(6);
    let length = s.short_at(4);
    let held = bytes.front(length);
    let answer = bytes.rest(length);
    put(room, 0, held);
    let marked = extend(limits, log, s.short_at(0), room);
    let room = &*room;
    marked_is(marked, answer)
        && room.front(held.len()) == held
        && room_is(room.rest(held.len()), answer.rest(3))
}

// Whether the image of a state is this one.
fn image_is(state: State, image: &[u8]) -> bool {
    let mut room = [0u8; 42];
    write_a2(state, &mut room);
    room.as_slice() == image
}

// A lookup: n, the marks, the code, the steps, the offset, the image of the state.
fn looked_is(limits: Limits, log: &[u8], s: &[u8]) -> bool {
    let bytes = s.rest(6);
    let length = s.short_at(4);
    let answer = bytes.rest(length);
    let looked = look_up(limits, log, bytes.front(length), s.long_at(0));
    looked.code == byte_at(answer, 0)
        && looked.steps == answer.short_at(1)
        && looked.offset == answer.long_at(3)
        && image_is(looked.state, answer.rest(7))
}

// Whether what the vector asks for is what it says; one of no operation does not hold.
pub(crate) fn marking_holds(v: &[u8]) -> bool {
    let mut room = large_buffer();
    let log = expand(v, &mut room);
    let limits = limits_of(v);
    let s = asked(v);
    match byte_at(v, 0) {
        BUILD => lent(s.short_at(0), |room| built_is(limits, log, s.rest(2), room)),
        EXTEND => lent(s.short_at(2), |room| extended_is(limits, log, s, room)),
        LOOK_UP => looked_is(limits, log, s),
        _ => false,
    }
}
