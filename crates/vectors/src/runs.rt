// Vectors of a run, over a log that stands in the vector or repeats a pattern.
use crate::expected::{STATE_SIZE, state_is};
use crate::given::state_in;
use crate::part::{Parts, announced, beyond};
use crate::turns::turns_are;
use unit::run::{Report, run};
use unit::state::State;

// The bytes of a report: code, stop, nine numbers and the state.
const REPORT_SIZE: usize = 79;

// Whether these bytes are a report, and nothing more.
fn report_is(report: Report, s: &[u8]) -> bool {
    let tally = report.tally;
    let totals = tally.totals;
    let numbers = [
        tally.read,
        tally.refused,
        totals.request,
        totals.release,
        totals.incompatible,
        totals.initiate,
        totals.terminate,
        totals.established,
    ];
    s.len() == REPORT_SIZE
        && s.begins(&[report.code, report.stop])
        && tally.offset == s.long_at(2)
        && s.rest(6)
            .begins(numbers.map(u32::to_be_bytes).as_flattened())
        && state_is(tally.state, s.rest(38))
}

// Whether a run, and its parts in turn, give these bytes of a report.
pub(crate) fn runs_as(state: State, log: &[u8], budget: usize, s: &[u8]) -> bool {
    report_is(run(state, log, budget), s) && turns_are(state, log, budget, s)
}

// A run over a log of the vector, held to what is expected in this way.
pub(crate) fn run_holds<H: FnOnce(State, &[u8], usize, &[u8]) -> bool>(s: &[u8], holds: H) -> bool
    requires { H.IsAlwaysCallable holds }
{
    let numbers = s.rest(STATE_SIZE);
    let length = numbers.short_at(4);
    let bytes = numbers.rest(6);
    holds(
        state_in(s),
        bytes.front(length),
        numbers.long_at(0),
        bytes.rest(length),
    )
}

// Fills a log with a pattern, again and again.
fn repeat(log: &mut [u8], pattern: &[u8]) {
    for (byte, again) in log.iter_mut().zip(pattern.iter().cycle()) {
        *byte = *again;
    }
}

// A reference to an array of this length is lent on as a slice with no proof; an array of a million zeros is not.
fn repeated_run_holds(s: &[u8], room: &mut [u8; 1048577]) -> bool {
    let numbers = s.rest(STATE_SIZE);
    let pattern = numbers.rest(8);
    let Some(log) = room.get_mut(..numbers.long_at(4)) else {
        return false;
    };
    repeat(log, announced(pattern));
    runs_as(state_in(s), log, numbers.long_at(0), beyond(pattern))
}

// A run over a pattern that is repeated and cut, to a log of at most one byte more than a run takes.
pub(crate) fn long_run_holds(s: &[u8]) -> bool {
    let mut room = [0u8; 1048577];
    repeated_run_holds(s, &mut room)
}
