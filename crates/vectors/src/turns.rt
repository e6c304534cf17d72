// A run made of its parts: records taken and applied in turn, held to what a vector expects of the run.
use crate::expected::state_is;
use crate::part::Parts;
use record::stop::Stop;
use record::take::{Front, take};
use std::ops::ControlFlow;
use unit::state::State;
use wire::byte::byte_at;
use wire::refusal::{ACCEPTED, Refusal};

// A run so far: the state, the offset reached, the records read and refused.
#[derive(Clone, Copy)]
struct Turns {
    state: State,
    at: usize,
    read: usize,
    refused: usize,
}

impl Turns {
    // One record applied.
    fn applied(self, bytes: &[u8]) -> Turns {
        let answer = self.state.apply(bytes);
        Turns {
            state: answer.state,
            at: self.at.saturating_add(bytes.len()),
            read: self.read.saturating_add(1),
            refused: self
                .refused
                .saturating_add(usize::from(answer.code != ACCEPTED)),
        }
    }

    // What stands next is taken: a record more, or the stop.
    fn next(self, log: &[u8]) -> ControlFlow<u8, Turns> {
        let left = log.rest(self.at);
        match take(left) {
            Ok(Front::Next { length, .. }) => {
                ControlFlow::Continue(self.applied(left.front(length)))
            }
            Ok(Front::Stop(stop)) => ControlFlow::Break(stop.number()),
            Err(refusal) => ControlFlow::Break(refusal.number()),
        }
    }

    // The stop where the budget is used up: that of the budget, where something is left.
    fn stop(self, log: &[u8]) -> u8 {
        let left = log.rest(self.at);
        match take(left) {
            Ok(Front::Stop(stop)) if left.is_empty() => stop.number(),
            Err(refusal) => refusal.number(),
            Ok(_) => Stop::BudgetUsed.number(),
        }
    }

    // So many records more, and the stop.
    fn through(self, log: &[u8], records: usize) -> (Turns, u8) {
        let mut turns = self;
        for _ in 0..records {
            match turns.next(log) {
                ControlFlow::Continue(next) => turns = next,
                ControlFlow::Break(stop) => return (turns, stop),
            }
        }
        (turns, turns.stop(log))
    }

    // Whether the bytes of a report have this stop, and this offset, records and state.
    fn is(self, stop: u8, s: &[u8]) -> bool {
        stop == byte_at(s, 1)
            && self.at == s.long_at(2)
            && self.read == s.long_at(6)
            && self.refused == s.long_at(10)
            && state_is(self.state, s.rest(38))
    }
}

// Whether a run that the vector expects to be accepted is taking and applying in turn, its totals left aside; and whether taking
// refuses the log of one that is to be refused with 12.
pub(crate) fn turns_are(state: State, log: &[u8], budget: usize, s: &[u8]) -> bool {
    let code = byte_at(s, 0);
    if code == Refusal::LogTooLong.number() {
        return matches!(take(log), Err(Refusal::LogTooLong));
    }
    if code != ACCEPTED {
        return true;
    }
    let start = Turns {
        state,
        at: 0,
        read: 0,
        refused: 0,
    };
    let (turns, stop) = start.through(log, budget);
    turns.is(stop, s)
}
