// The judge: how far a sheet is the one that our step produces from a cold start.
ghost use Rattle.std.specs.Prelude.{◌≡◌, length};
ghost use Rattle.record.specs.Stops.{stop_number};
ghost use Rattle.judge.specs.Judging.{stopped_at, judged_from, judge_refused, judge_from, judgement};

use crate::due::{Due, Finding, Point, dues_at, stopped_as};
use crate::reader::Reader;
use place::limits::Limits;
use record::stop::Stop;
use record::take::{Front, front_at};
use unit::bytes::ACTION_SIZE;
use unit::start::cold_start;
use unit::state::State;
use wire::refusal::{ACCEPTED, Refusal};

// The longest sheet.
pub const LONGEST_SHEET: usize = 1_048_576;

// What the judge answers: 0 or the number of the refusal, the event records that stand right with all that follows them, and the point
// reached: right at the end of an accepted sheet, else the first record that is wrong, short or missing.
#[derive(Clone, Copy)]
pub struct Verdict {
    pub code: u8,
    pub records: usize,
    pub point: Point,
}

impl Verdict {
    fn refused(code: u8) -> Verdict
        ensures { result ≡ judge_refused code }
    {
        Verdict {
            code,
            records: 0,
            point: Point {
                stands: Finding::Right,
                at: 0,
                due: Due::AnEvent,
            },
        }
    }

    // Where no whole event record stands.
    fn stopped(records: usize, stop: Stop, at: usize) -> Verdict
        ensures { result ≡ stopped_at records (stop_number stop) at }
    {
        Verdict {
            code: ACCEPTED,
            records,
            point: Point {
                stands: stopped_as(stop),
                at,
                due: Due::AnEvent,
            },
        }
    }
}

// How far a sheet is ours from this state on, and from this offset.
fn walk(start: State, sheet: &[u8], from: usize) -> Verdict
    ensures { result ≡ judged_from (length sheet.now) start sheet.now from 0 }
{
    let mut state = start;
    let mut at = from;
    let mut records = 0;
    loop {
        match front_at(sheet, at) {
            Front::Stop(stop) => {
                break Verdict::stopped(records, stop, at);
            }
            Front::Next { length, .. } => {
                let end = at + length;
                let mut buffer = [0u8; 20];
                let stepped = state.on_record(&sheet[at..end], &mut buffer);
                let next = stepped.state;
                let sent = ACTION_SIZE * stepped.count;
                let point = dues_at(sheet, end, stepped.code, &buffer[..sent]);
                let stands = point.stands;
                if stands.is_right() {
                    state = next;
                    at = point.at;
                    records += 1;
                } else {
                    break Verdict {
                        code: ACCEPTED,
                        records,
                        point,
                    };
                }
            }
        }
    }
}

// Judges a sheet from an offset on, as one that begins there: refusal 13 for the cold start, then 12 over 1,048,576 bytes.
pub(crate) fn judge_from(limits: Limits, sheet: &[u8], at: usize) -> Verdict
    ensures { result ≡ judge_from limits sheet.now at }
{
    let started = cold_start(limits);
    let code = started.code;
    let state = started.state;
    if code != ACCEPTED {
        return Verdict::refused(code);
    }
    if sheet.len() > LONGEST_SHEET {
        return Verdict::refused(Refusal::LogTooLong.number());
    }
    walk(state, sheet, at)
}

// Judges a sheet from a cold start with these limits: refusal 13 for the cold start, then 12 for a sheet over 1,048,576 bytes.
pub fn judge(limits: Limits, sheet: &[u8]) -> Verdict
    ensures { result ≡ judgement limits sheet.now }
{
    Reader::open(sheet).judged(limits)
}
