// Building the marks of a log, and extending them after an append.
ghost use Rattle.std.specs.Prelude.{◌≡◌, true, ◌++◌, ◌+◌, ◌*◌, ◌≤◌, length, take, drop};
ghost use Rattle.wire.specs.Blocks.{blocks};
ghost use Rattle.record.specs.Takes.{longest_log};
ghost use Rattle.unit.specs.States.{sound};
ghost use Rattle.marks.specs.Marks.{mark_size, whole_records, marks_from};
ghost use Rattle.marks.specs.Beginning.{extend_refused};
ghost use Rattle.marks.specs.Building.{extended, extended_room, built, built_room};

use crate::mark::{Begun, MARK_EVERY, MARK_SIZE, begins_at, put_mark};
use place::limits::Limits;
use record::read::length_of;
use unit::run::run;
use wire::refusal::{ACCEPTED, Refusal};

// What building and extending answer: 0 or the number of the refusal, and how many marks there are.
#[derive(Clone, Copy)]
pub struct Marked {
    pub code: u8,
    pub marks: usize,
}

impl Marked {
    fn refused(code: u8) -> Marked
        ensures { result ≡ extend_refused code }
    {
        Marked { code, marks: 0 }
    }
}

// The records of a log from an offset on, before the stop, counted by their lengths alone.
fn count_records(log: &[u8], from: usize) -> usize
    ensures { result ≡ whole_records (drop from log.now) }
{
    let mut at = from;
    let mut records = 0;
    loop {
        if at >= log.len() {
            break records;
        }
        let length = length_of(log[at]);
        if length == 0 {
            break records;
        }
        if log.len() - at < length {
            break records;
        }
        at += length;
        records += 1;
    }
}

// Writes so many marks behind those that are held, from a point of the log on.
fn fill(begun: Begun, log: &[u8], room: &mut [u8], held: usize, count: usize)
    requires { (length log.now ≤ longest_log)
        × (begun.offset ≤ length log.now)
        × (sound begun.state ≡ true)
        × (mark_size * (held + count) ≤ length room.old) }
    ensures { room.new
        ≡ take (mark_size * held) room.old
        ++ (blocks (λ mark. mark) (marks_from count begun.state begun.offset log.now)
        ++ drop (mark_size * (held + count)) room.old) }
{
    let mut state = begun.state;
    let mut at = begun.offset;
    for i in 0..count {
        let report = run(state, &log[at..], MARK_EVERY);
        let tally = report.tally;
        let next = tally.state;
        at += tally.offset;
        put_mark(room, MARK_SIZE * (held + i), at, next);
        state = next;
    }
}

// Extends the marks that the room holds, so many, after the log has grown: from the last of them on; with none held they are built.
// Refusals 13; 12; 11 for a last mark that a lookup would refuse with 11; 10 for room that is too small. A refused call writes nothing.
pub fn extend(limits: Limits, log: &[u8], held: usize, room: &mut [u8]) -> Marked
    ensures { (result ≡ extended limits log.now held room.old)
        × (room.new ≡ extended_room limits log.now held room.old) }
{
    let begun = begins_at(limits, log, room, held, Refusal::NoRoom.number());
    let code = begun.code;
    if code != ACCEPTED {
        return Marked::refused(code);
    }
    let count = count_records(log, begun.offset) / MARK_EVERY;
    if room.len() / MARK_SIZE - held < count {
        return Marked::refused(Refusal::NoRoom.number());
    }
    fill(begun, log, room, held, count);
    Marked {
        code: ACCEPTED,
        marks: held + count,
    }
}

// Builds the marks of a log: one after each 256th record before the run's stop. Refusals 13; 12; 10 for room that is too small. A refused
// call writes nothing.
pub fn build(limits: Limits, log: &[u8], room: &mut [u8]) -> Marked
    ensures { (result ≡ built limits log.now room.old)
        × (room.new ≡ built_room limits log.now room.old) }
{
    extend(limits, log, 0, room)
}
