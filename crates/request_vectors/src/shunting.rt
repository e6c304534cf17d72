// The shunter as its vectors give it: the bytes of its state and of its queue.
use crate::engine::{Engine, Ran, engine_holds};
use place::limits::Limits;
use shunter::queue::Queue;
use shunter::run::run;
use shunter::start::fit;
use shunter::state::Shunter;
use vectors::expected::{STATE_SIZE, state_is};
use vectors::given::state_in;
use vectors::part::Parts;
use wire::byte::byte_at;

// Where the state stands in what is expected of a step, behind the code, the count, and the place and the phase of the partner.
const STEPPED_STATE: usize = 4;

impl Engine for Shunter {
    const SIZE: usize = STATE_SIZE + 2;

    const STEPPED_SIZE: usize = STEPPED_STATE + STATE_SIZE + 2;

    fn given(s: &[u8]) -> Shunter {
        let queue = s.rest(STATE_SIZE);
        Shunter {
            state: state_in(s),
            queue: Queue {
                first: queue.number_at(0),
                second: queue.number_at(1),
            },
        }
    }

    fn is(self, s: &[u8]) -> bool {
        let Shunter { state, queue } = self;
        let behind = s.rest(STATE_SIZE);
        state_is(state, s)
            && queue.first == behind.number_at(0)
            && queue.second == behind.number_at(1)
    }

    fn start(limits: Limits) -> (u8, Shunter) {
        let fitted = fit(limits);
        (fitted.code, fitted.shunter)
    }

    fn step_is(self, record: &[u8], room: &mut [u8], s: &[u8]) -> bool {
        let sent = self.on_record(record, room);
        let standing = sent.standing;
        sent.code == byte_at(s, 0)
            && sent.count == s.number_at(1)
            && standing.place == s.number_at(2)
            && standing.phase == byte_at(s, 3)
            && sent.shunter.is(s.rest(STEPPED_STATE))
    }

    fn run(self, log: &[u8], budget: usize) -> Ran<Shunter> {
        let report = run(self, log, budget);
        let tally = report.tally;
        Ran {
            code: report.code,
            stop: report.stop,
            offset: tally.offset,
            read: tally.read,
            refused: tally.refused,
            totals: tally.totals,
            state: tally.state,
        }
    }
}

// Whether the shunter answers what the vector says.
pub(crate) fn shunting_holds(v: &[u8]) -> bool {
    engine_holds::<Shunter>(v)
}
