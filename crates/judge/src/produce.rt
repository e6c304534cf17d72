// Our own sheet of a log: a first pass counts its bytes, a second writes them.
ghost use Rattle.std.specs.Prelude.{◌≡◌, ◌∷◌, ◌++◌, ◌+◌, ◌≤◌, length, drop};
ghost use Rattle.std.proofs.lemmas.List.Edits.{sets};
ghost use Rattle.record.specs.Takes.{longest_log};
ghost use Rattle.unit.specs.Runs.{course};
ghost use Rattle.judge.specs.Sheets.{answer_kind};
ghost use Rattle.judge.specs.FrontWords.{answer_size};
ghost use Rattle.judge.specs.Producing.{course_sheet, produce_refused, produced, produced_room};
ghost use Rattle.judge.specs.Buffers.{measured};

use crate::due::{ANSWER_KIND, ANSWER_SIZE};
use crate::judge::LONGEST_SHEET;
use place::limits::Limits;
use record::take::{Front, LONGEST_LOG, front_at};
use unit::bytes::ACTION_SIZE;
use unit::start::cold_start;
use unit::state::State;
use wire::refusal::{ACCEPTED, Refusal};

// What making a sheet answers: 0 or the number of the refusal, the bytes written, the event records, and the run's stop.
#[derive(Clone, Copy)]
pub struct Produced {
    pub code: u8,
    pub written: usize,
    pub records: usize,
    pub stop: u8,
}

// The sheet of a log, counted: its bytes, its event records, and the stop.
#[derive(Clone, Copy)]
struct Measured {
    size: usize,
    records: usize,
    stop: u8,
}

impl Produced {
    fn refused(code: u8) -> Produced
        ensures { result ≡ produce_refused code }
    {
        Produced {
            code,
            written: 0,
            records: 0,
            stop: 0,
        }
    }
}

// Counts the sheet of a log from this state on.
fn measure(start: State, log: &[u8]) -> Measured
    requires { length log.now ≤ longest_log }
    ensures { result ≡ measured (course (length log.now) start log.now) }
{
    let mut state = start;
    let mut at = 0;
    let mut size = 0;
    let mut records = 0;
    loop {
        match front_at(log, at) {
            Front::Stop(stop) => {
                break Measured {
                    size,
                    records,
                    stop: stop.number(),
                };
            }
            Front::Next { length, .. } => {
                let end = at + length;
                let mut buffer = [0u8; 20];
                let stepped = state.on_record(&log[at..end], &mut buffer);
                let next = stepped.state;
                state = next;
                at = end;
                size += length + ANSWER_SIZE + ACTION_SIZE * stepped.count;
                records += 1;
            }
        }
    }
}

// Puts a record, its answer and its actions at a place; answers where they end.
fn put_entry(room: &mut [u8], at: usize, bytes: &[u8], code: u8, actions: &[u8]) -> usize
    requires { at + (length bytes.now + (answer_size + length actions.now)) ≤ length room.old }
    ensures { (result ≡ at + (length bytes.now + (answer_size + length actions.now)))
        × (room.new
        ≡ sets room.old at (bytes.now ++ (answer_kind ∷ code ∷ actions.now))) }
{
    let answer = at + bytes.len();
    let sent = answer + ANSWER_SIZE;
    let end = sent + actions.len();
    room[at..answer].copy_from_slice(bytes);
    room[answer] = ANSWER_KIND;
    room[answer + 1] = code;
    room[sent..end].copy_from_slice(actions);
    end
}

// Writes the sheet of a log from this state on.
fn fill(start: State, log: &[u8], room: &mut [u8])
    requires { (length log.now ≤ longest_log)
        × (length (course_sheet (course (length log.now) start log.now)) ≤ length room.old) }
    ensures { room.new
        ≡ course_sheet (course (length log.now) start log.now)
        ++ drop (length (course_sheet (course (length log.now) start log.now))) room.old }
{
    let mut state = start;
    let mut at = 0;
    let mut used = 0;
    while let Front::Next { length, .. } = front_at(log, at) {
        let end = at + length;
        let mut buffer = [0u8; 20];
        let stepped = state.on_record(&log[at..end], &mut buffer);
        let next = stepped.state;
        let sent = ACTION_SIZE * stepped.count;
        used = put_entry(room, used, &log[at..end], stepped.code, &buffer[..sent]);
        state = next;
        at = end;
    }
}

// Writes our own sheet of a log from a cold start with these limits to the front of the room: the records before the run's stop, each with
// its answer and its actions. Refusals 13; 12 for a log or a sheet over 1,048,576 bytes; 10 for room under the sheet's own length. A
// refused one writes nothing.
pub fn produce(limits: Limits, log: &[u8], room: &mut [u8]) -> Produced
    ensures { (result ≡ produced limits log.now (length room.old))
        × (room.new ≡ produced_room limits log.now room.old) }
{
    let started = cold_start(limits);
    let refusal = started.code;
    let state = started.state;
    if refusal != ACCEPTED {
        return Produced::refused(refusal);
    }
    if log.len() > LONGEST_LOG {
        return Produced::refused(Refusal::LogTooLong.number());
    }
    let sheet = measure(state, log);
    let size = sheet.size;
    if size > LONGEST_SHEET {
        return Produced::refused(Refusal::LogTooLong.number());
    }
    if size > room.len() {
        return Produced::refused(Refusal::NoRoom.number());
    }
    fill(state, log, room);
    Produced {
        code: ACCEPTED,
        written: size,
        records: sheet.records,
        stop: sheet.stop,
    }
}
