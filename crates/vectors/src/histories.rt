// Vectors of a history: records stepped one after the other from a cold start.
use crate::expected::{STATE_SIZE, sent_is, sent_size, state_is};
use crate::given::Given;
use crate::part::{Parts, announced, beyond};
use unit::start::cold_start;
use wire::refusal::ACCEPTED;

// Where the number of the records stands, after the limits, and where they begin.
const COUNT_AT: usize = 3;

const RECORDS_AT: usize = 5;

// A history: each record with what is expected of it, and at the end the state and nothing more.
pub(crate) fn history_holds(s: &[u8]) -> bool {
    let start = cold_start(s.limits(2));
    if start.code != ACCEPTED {
        return false;
    }
    let mut state = start.state;
    let mut left = s.rest(RECORDS_AT);
    for _ in 0..s.short_at(COUNT_AT) {
        let sent = beyond(left);
        let mut buffer = [0u8; 20];
        let stepped = state.on_record(announced(left), &mut buffer);
        if !sent_is(stepped, &buffer, sent) {
            return false;
        }
        state = stepped.state;
        left = sent.rest(sent_size(sent));
    }
    left.len() == STATE_SIZE && state_is(state, left)
}
