// A vector of our own sheet: limits, the room lent, the answer that is expected, the log, and the sheet.
use crate::judging::limits_of;
use crate::room::{lent, untouched};
use judge::produce::produce;
use vectors::part::Parts;
use wire::byte::byte_at;

// Where the fields of a vector stand.
const ROOM: usize = 4;

const CODE: usize = 6;

const WRITTEN: usize = 7;

const RECORDS: usize = 11;

const STOP: usize = 15;

const LOG_LENGTH: usize = 16;

const LOG: usize = 18;

// Whether the sheet made in this room is what the vector says: the numbers of the answer, the sheet at the front of the room, and the
// bytes behind it as they were.
fn made_is(v: &[u8], room: &mut [u8]) -> bool {
    let bytes = v.rest(LOG);
    let length = v.short_at(LOG_LENGTH);
    let sheet = bytes.rest(length);
    let answer = produce(limits_of(v), bytes.front(length), room);
    let room = &*room;
    byte_at(v, CODE) == answer.code
        && v.long_at(WRITTEN) == answer.written
        && v.long_at(RECORDS) == answer.records
        && byte_at(v, STOP) == answer.stop
        && room.front(answer.written) == sheet
        && untouched(room.rest(answer.written))
}

// Whether our own sheet is what the vector says, in a room of the length that it says.
pub(crate) fn making_holds(v: &[u8]) -> bool {
    lent(v.short_at(ROOM), |room| made_is(v, room))
}
