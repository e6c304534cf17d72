// Vectors of mixes: one record on the states that differ in what places 2 and 3 hold.
use crate::expected::{
    HEAD_SIZE, PLACE_SIZE, last_is, limits_are, mark_is, places_are, sent_is, sent_size,
};
use crate::given::{Given, last_in, phase_in, state_in};
use crate::part::{Parts, announced, beyond};
use place::phase::FIRST_TRY;
use place::place::{Direction, Place};
use record::partner::{Partner, RBC, RIU};
use record::read::{KIND_MISSION, KIND_ORDER};
use unit::state::{Marks, State};
use wire::byte::byte_at;
use wire::refusal::ACCEPTED;

// What a place may hold: nothing, an RBC in one of five phases, or an RIU in one of them.
const CHOICES: u8 = 11;

const PHASES: u8 = 5;

// The last bytes of the partner numbers in places 2 and 3; the others are 0.
const LOW_OF_TWO: u8 = 0x22;

const LOW_OF_THREE: u8 = 0x23;

// Where the number of tries stands, the last known RBC, and the record.
const MIX_TRIES_AT: usize = HEAD_SIZE + 2 * PLACE_SIZE;

const MIX_LAST_AT: usize = MIX_TRIES_AT + 1;

const RECORD_AT: usize = MIX_LAST_AT + 4;

// The bytes of four places and of the last known RBC.
const PLACES_SIZE: usize = 4 * PLACE_SIZE;

const AFTER_SIZE: usize = PLACES_SIZE + 4;

fn held(kind: u8, phase: u8, low: u8) -> Place {
    let partner = Partner {
        kind,
        high: 0,
        middle: 0,
        low,
    };
    Place::held(Direction::Outgoing, phase_in(phase, FIRST_TRY), partner)
}

// A place's choice.
fn chosen(choice: u8, low: u8) -> Place {
    match choice {
        0 => Place::free(),
        1..=PHASES => held(RBC, choice, low),
        _ => held(RIU, choice - PHASES, low),
    }
}

// The state of a mix: the vector's head, first two places, tries and last known RBC, and two choices.
fn mixed(s: &[u8], two: u8, three: u8) -> State {
    let mut state = state_in(s);
    state.limits = s.limits(MIX_TRIES_AT);
    state.places[2] = chosen(two, LOW_OF_TWO);
    state.places[3] = chosen(three, LOW_OF_THREE);
    state.last = last_in(s.rest(MIX_LAST_AT));
    state
}

// The mission after: an accepted mission record's, else as before.
fn mission_after(code: u8, record: &[u8], s: &[u8]) -> u8 {
    if code == ACCEPTED && byte_at(record, 0) == KIND_MISSION {
        byte_at(record, 1)
    } else {
        byte_at(s, 3)
    }
}

// The cause of an accepted order.
fn cause_used(code: u8, record: &[u8]) -> Option<u8> {
    if code == ACCEPTED && byte_at(record, 0) == KIND_ORDER {
        Some(byte_at(record, 6))
    } else {
        None
    }
}

// Whether a mark is cleared where the cause that uses it was, and else the vector's.
fn mark_left(mark: bool, cause: Option<u8>, user: u8, s: &[u8], at: usize) -> bool {
    if cause == Some(user) {
        !mark
    } else {
        mark_is(mark, s, at)
    }
}

fn marks_left(marks: Marks, cause: Option<u8>, s: &[u8]) -> bool {
    mark_is(marks.inside, s, 4)
        && mark_left(marks.mode, cause, 2, s, 5)
        && mark_left(marks.manual, cause, 3, s, 6)
        && mark_left(marks.end, cause, 4, s, 7)
}

// Whether limits and level are the vector's, the marks as this cause left them, and this is the mission.
fn head_kept(state: State, mission: u8, cause: Option<u8>, s: &[u8]) -> bool {
    let train = state.train;
    limits_are(state.limits, s, MIX_TRIES_AT)
        && marks_left(state.marks, cause, s)
        && train.level == u64::from(byte_at(s, 2))
        && train.mission == u64::from(mission)
}

// Whether the bytes at the front are the four places and the last known RBC.
fn after_is(state: State, s: &[u8]) -> bool {
    places_are(state, s) && last_is(state.last, s.rest(PLACES_SIZE))
}

// Whether the record on this mix gives what stands at the front of the bytes left.
fn mix_holds(state: State, s: &[u8], left: &[u8]) -> bool {
    let record = announced(s.rest(RECORD_AT));
    let mut buffer = [0u8; 20];
    let stepped = state.on_record(record, &mut buffer);
    let mission = mission_after(stepped.code, record, s);
    let cause = cause_used(stepped.code, record);
    sent_is(stepped, &buffer, left)
        && head_kept(stepped.state, mission, cause, s)
        && after_is(stepped.state, left.rest(sent_size(left)))
}

// All mixes of the choices for places 2 and 3, and nothing more.
pub(crate) fn mixes_hold(s: &[u8]) -> bool {
    let mut left = beyond(s.rest(RECORD_AT));
    for two in 0..CHOICES {
        for three in 0..CHOICES {
            if !mix_holds(mixed(s, two, three), s, left) {
                return false;
            }
            let Some(behind) = left.get(sent_size(left) + AFTER_SIZE..) else {
                return false;
            };
            left = behind;
        }
    }
    left.is_empty()
}
