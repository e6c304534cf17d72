// A vector of an engine: a start, a step or a run; what is given, and what is expected.
use crate::judging::limits_of;
use crate::log::{asked, expand};
use crate::room::{lent, room_is};
use place::limits::Limits;
use streams::large_buffer;
use unit::bytes::ACTION_SIZE;
use unit::run::Totals;
use vectors::part::Parts;
use wire::byte::byte_at;

// Where what is expected of a start stands; and in what is expected of a run the records read and refused, before the totals, and the
// state.
const STARTED: usize = 4;

const READ: usize = 6;

const RAN_STATE: usize = 38;

// The operations.
const START: u8 = 1;

const STEP: u8 = 2;

const RUN: u8 = 3;

// What a run answers: its code and stop, the offset, the records read and refused, the totals, and the state.
#[derive(Clone, Copy)]
pub(crate) struct Ran<E> {
    pub code: u8,
    pub stop: u8,
    pub offset: usize,
    pub read: u32,
    pub refused: u32,
    pub totals: Totals,
    pub state: E,
}

// The state of an engine.
pub(crate) trait Engine: Copy {
    // Its bytes, and those of what a step answers.
    const SIZE: usize;

    const STEPPED_SIZE: usize;

    // The state in the bytes at the front, sound or not.
    fn given(s: &[u8]) -> Self;

    // Whether the bytes at the front are those of this state.
    fn is(self, s: &[u8]) -> bool;

    // What a start answers: its code and the state.
    fn start(limits: Limits) -> (u8, Self);

    // Whether these bytes are what a step in this room answers.
    fn step_is(self, record: &[u8], room: &mut [u8], s: &[u8]) -> bool;

    // A run over a log.
    fn run(self, log: &[u8], budget: usize) -> Ran<Self>;
}

// A start: the limits, the code, the state.
fn start_holds<E: Engine>(v: &[u8]) -> bool {
    let (code, state) = E::start(limits_of(v));
    let s = v.rest(STARTED);
    let bytes = s.rest(1);
    bytes.len() == E::SIZE && code == byte_at(s, 0) && state.is(bytes)
}

// A step in this room: the record with its length, the answer, and so many actions.
fn stepped_is<E: Engine>(state: E, s: &[u8], room: &mut [u8]) -> bool {
    let bytes = s.rest(1);
    let length = s.number_at(0);
    let Some((answer, actions)) = bytes.rest(length).split_at_checked(E::STEPPED_SIZE) else {
        return false;
    };
    actions.len() == ACTION_SIZE * answer.number_at(1)
        && state.step_is(bytes.front(length), room, answer)
        && room_is(room, actions)
}

// A step: the state, the room's length, and the step in it.
fn step_holds<E: Engine>(v: &[u8]) -> bool {
    let given = v.rest(1);
    let s = given.rest(E::SIZE);
    lent(s.short_at(0), |room| {
        stepped_is(E::given(given), s.rest(2), room)
    })
}

// A run: the state, the budget, the log, the report.
fn run_holds<E: Engine>(v: &[u8]) -> bool {
    let given = v.rest(1);
    let s = given.rest(E::SIZE);
    let mut room = large_buffer();
    let log = expand(s, &mut room);
    let ran = E::given(given).run(log, s.long_at(0));
    let totals = ran.totals;
    let numbers = [
        ran.read,
        ran.refused,
        totals.request,
        totals.release,
        totals.incompatible,
        totals.initiate,
        totals.terminate,
        totals.established,
    ];
    let report = asked(s);
    let bytes = report.rest(RAN_STATE);
    bytes.len() == E::SIZE
        && report.begins(&[ran.code, ran.stop])
        && ran.offset == report.long_at(2)
        && report
            .rest(READ)
            .begins(numbers.map(u32::to_be_bytes).as_flattened())
        && ran.state.is(bytes)
}

// Whether the engine answers what the vector says; one of no operation does not hold.
pub(crate) fn engine_holds<E: Engine>(v: &[u8]) -> bool {
    match byte_at(v, 0) {
        START => start_holds::<E>(v),
        STEP => step_holds::<E>(v),
        RUN => run_holds::<E>(v),
        _ => false,
    }
}
