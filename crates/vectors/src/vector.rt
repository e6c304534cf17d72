// One vector: its group, its operation, and whether the code answers as it expects.
//
// A body is its group, its operation, and what the list of operations says: what is given and, after a semicolon, what is
// expected. A state is the 41 bytes of an A2 image after its kind; a number of several bytes has its high byte first.
use crate::group::Group;
use crate::histories::history_holds;
use crate::mixes::mixes_hold;
use crate::rescues::rescue_holds;
use crate::runs::{long_run_holds, run_holds, runs_as};
use crate::single::{default_holds, load_holds, start_holds, step_holds, store_holds};
use crate::turns::turns_are;
use image::read::{read_a2, read_image};
use image::write::{write_a1, write_a2};
use wire::byte::byte_at;

// X numbers (2), tries; code, state
const COLD_START: u8 = 1;

// state, record length (1), record, buffer length (1), fill (1); code, count, place, phase, state, buffer
const STEP: u8 = 2;

// of A2: state, buffer length (1), fill (1); code, count, state, buffer
const STORE: u8 = 3;

// of either kind: length (1), bytes; code, state
const LOAD: u8 = 4;

// state, budget (4), log length (2), log; code, stop, offset, read, refused and six totals (4 each), state
const RUN: u8 = 5;

// state, budget (4), log length (4), pattern length (1), pattern; as for a run
const LONG_RUN: u8 = 6;

// X numbers (2), tries, number of records (2), each record: length (1), record; code, count, place, phase, actions; at the end:
// state
const HISTORY: u8 = 7;

// eight bytes of a state, places 0 and 1, tries, last known RBC (4), record length (1), record; 121 times: code, count, place,
// phase, actions, four places, last known RBC (4)
const MIXES: u8 = 8;

// X numbers (2); code, state
const DEFAULT_START: u8 = 9;

// of A1, as STORE; of A2 alone, as LOAD
const STORE_A1: u8 = 10;

const LOAD_A2: u8 = 11;

// length (1), bytes; code, count, the fields, the bytes at exit
const RESCUE: u8 = 12;

// as RUN, without the code and the totals: taken and applied in turn; what is wrong for both would else be seen in neither
const PARTS: u8 = 13;

// The group of a vector, if one has its number.
pub(crate) fn group_of(body: &[u8]) -> Option<Group> {
    Group::numbered(byte_at(body, 0))
}

fn operation_holds(operation: u8, s: &[u8]) -> bool {
    match operation {
        COLD_START => start_holds(s),
        STEP => step_holds(s),
        STORE => store_holds(s, write_a2),
        LOAD => load_holds(s, read_image),
        RUN => run_holds(s, runs_as),
        LONG_RUN => long_run_holds(s),
        HISTORY => history_holds(s),
        MIXES => mixes_hold(s),
        DEFAULT_START => default_holds(s),
        STORE_A1 => store_holds(s, write_a1),
        LOAD_A2 => load_holds(s, read_a2),
        RESCUE => rescue_holds(s),
        PARTS => run_holds(s, turns_are),
        _ => false,
    }
}

// Whether a vector holds; one of no group, of an unknown operation, cut off or with bytes left over does not.
pub(crate) fn holds(body: &[u8]) -> bool {
    match body {
        [_, operation, given @ ..] if group_of(body).is_some() => {
            operation_holds(*operation, given)
        }
        _ => false,
    }
}
