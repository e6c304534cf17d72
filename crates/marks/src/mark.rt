// One mark: written, and read.
ghost use Rattle.std.specs.Prelude.{◌≡◌, true, ◌+◌, ◌≤◌, ◌<◌, ◌^◌, length};
ghost use Rattle.std.proofs.lemmas.List.Edits.{sets};
ghost use Rattle.unit.specs.States.{sound, cold, no_limits};
ghost use Rattle.marks.specs.Beginning.{begins_at};
ghost use Rattle.marks.specs.Marks.{mark_size, offset_in, mark_of, begun_refused, mark_in, begun_at};

use image::read::read_a2;
use image::write::write_a2;
use place::limits::Limits;
use record::take::LONGEST_LOG;
use unit::start::cold_start;
use unit::state::State;
use wire::byte::byte_at;
use wire::refusal::{ACCEPTED, Refusal};

// The kind of a mark, where its image stands, and its bytes.
pub const MARK_KIND: u8 = 0xA3;

const IMAGE_AT: usize = 5;

pub const MARK_SIZE: usize = 47;

// A mark stands after each of so many records.
pub const MARK_EVERY: usize = 256;

// A point of a log that a mark leads to: 0 or the number of the refusal, the state there, and the offset.
#[derive(Clone, Copy)]
pub struct Begun {
    pub code: u8,
    pub state: State,
    pub offset: usize,
}

// The state that a refusal answers.
pub(crate) fn refused_state() -> State
    ensures { result ≡ cold no_limits }
{
    let started = cold_start(Limits {
        lowest: 1,
        highest: 0,
        tries: 0,
    });
    started.state
}

impl Begun {
    fn refused(code: u8) -> Begun
        ensures { result ≡ begun_refused code }
    {
        Begun {
            code,
            state: refused_state(),
            offset: 0,
        }
    }
}

// The offset that a mark holds.
fn offset_in(mark: &[u8]) -> usize
    ensures { result ≡ offset_in mark.now }
{
    let bytes = [
        byte_at(mark, 1),
        byte_at(mark, 2),
        byte_at(mark, 3),
        byte_at(mark, 4),
    ];
    u32::from_be_bytes(bytes) as usize
}

// Where a mark of 47 bytes leads; 11 where it has another kind, an offset past the log, or an image that is not sound.
fn mark_in(log: &[u8], mark: &[u8]) -> Begun
    requires { length mark.now ≡ mark_size }
    ensures { result ≡ mark_in log.now mark.now }
{
    if byte_at(mark, 0) != MARK_KIND {
        return Begun::refused(Refusal::NotSound.number());
    }
    let offset = offset_in(mark);
    if offset > log.len() {
        return Begun::refused(Refusal::NotSound.number());
    }
    let read = read_a2(&mark[IMAGE_AT..]);
    let code = read.code;
    let state = read.state;
    if code != ACCEPTED {
        return Begun::refused(Refusal::NotSound.number());
    }
    Begun {
        code: ACCEPTED,
        state,
        offset,
    }
}

// Where the mark of this number leads, from 1 on; number 0 is the start that is given; this refusal where the mark is not there whole.
fn begun_at(start: State, log: &[u8], marks: &[u8], number: usize, missing: u8) -> Begun
    ensures { result ≡ begun_at start log.now marks.now number missing }
{
    if number == 0 {
        return Begun {
            code: ACCEPTED,
            state: start,
            offset: 0,
        };
    }
    if marks.len() / MARK_SIZE < number {
        return Begun::refused(missing);
    }
    let end = MARK_SIZE * number;
    let from = end - MARK_SIZE;
    mark_in(log, &marks[from..end])
}

// The point to begin from: refusals 13; 12; then those of the mark of this number.
pub(crate) fn begins_at(
    limits: Limits,
    log: &[u8],
    marks: &[u8],
    number: usize,
    missing: u8,
) -> Begun
    ensures { result ≡ begins_at limits log.now marks.now number missing }
{
    let started = cold_start(limits);
    let refusal = started.code;
    let start = started.state;
    if refusal != ACCEPTED {
        return Begun::refused(refusal);
    }
    if log.len() > LONGEST_LOG {
        return Begun::refused(Refusal::LogTooLong.number());
    }
    begun_at(start, log, marks, number, missing)
}

// Writes the mark of a sound state at this offset of a log to a place of the room.
pub(crate) fn put_mark(room: &mut [u8], at: usize, offset: usize, state: State)
    requires { (at + mark_size ≤ length room.old) × (offset < 2 ^ 32) × (sound state ≡ true) }
    ensures { room.new ≡ sets room.old at (mark_of offset state) }
{
    let image = at + IMAGE_AT;
    let end = at + MARK_SIZE;
    room[at] = MARK_KIND;
    room[at + 1..image].copy_from_slice(&(offset as u32).to_be_bytes());
    write_a2(state, &mut room[image..end]);
}
