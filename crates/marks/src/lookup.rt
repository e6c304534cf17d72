// The state after a record of a log, from the nearest mark at or before it.
ghost use Rattle.std.specs.Prelude.{◌≡◌};
ghost use Rattle.marks.specs.Lookup.{look_refused, looked_up};

use crate::mark::{MARK_EVERY, begins_at, refused_state};
use place::limits::Limits;
use unit::run::run;
use unit::state::State;
use wire::refusal::ACCEPTED;

// Refusal 19: the mark that is called for is not there, or the stop comes before the record.
pub const NO_MARK: u8 = 19;

// What a lookup answers: 0 or the number of the refusal, the state, how many records were stepped, and the offset reached in the log.
#[derive(Clone, Copy)]
pub struct Looked {
    pub code: u8,
    pub state: State,
    pub steps: usize,
    pub offset: usize,
}

impl Looked {
    fn refused(code: u8) -> Looked
        ensures { result ≡ look_refused code }
    {
        Looked {
            code,
            state: refused_state(),
            steps: 0,
            offset: 0,
        }
    }
}

// Looks up the state after record n. Refusals 13; 12; 19 where the mark that n calls for is not there; 11 where that mark has another kind,
// an offset past the log or an image that is not sound; 19 where the stop comes before record n. It reads one mark and at most 255 records.
pub fn look_up(limits: Limits, log: &[u8], marks: &[u8], n: usize) -> Looked
    ensures { result ≡ looked_up limits log.now marks.now n }
{
    let begun = begins_at(limits, log, marks, n / MARK_EVERY, NO_MARK);
    let code = begun.code;
    if code != ACCEPTED {
        return Looked::refused(code);
    }
    let offset = begun.offset;
    let steps = n % MARK_EVERY;
    let report = run(begun.state, &log[offset..], steps);
    let tally = report.tally;
    let state = tally.state;
    if tally.read as usize != steps {
        return Looked::refused(NO_MARK);
    }
    Looked {
        code: ACCEPTED,
        state,
        steps,
        offset: offset + tally.offset,
    }
}
