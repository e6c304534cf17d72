// A vector of sheets: limits, and a sheet that is judged, or a log whose sheet is made.
use crate::making::making_holds;
use judge::due::{Due, Finding};
use judge::judge::judge;
use place::limits::Limits;
use record::partner::Partner;
use vectors::given::Given;
use vectors::part::Parts;
use wire::byte::byte_at;

// The operations: a sheet judged, one made.
const JUDGE: u8 = 1;

const PRODUCE: u8 = 2;

// Where the fields of a vector stand.
const CODE: usize = 4;

const FAULT: usize = 5;

const OFFSET: usize = 6;

const RECORDS: usize = 10;

const DUE: usize = 14;

const SHEET: usize = 20;

// What may be due, by its number in a vector.
const AN_EVENT: u8 = 0;

const THE_ANSWER: u8 = 1;

const THE_ACTION: u8 = 2;

// The limits of a vector.
pub(crate) fn limits_of(v: &[u8]) -> Limits {
    v.rest(1).limits(2)
}

fn fault_number(stands: Finding) -> u8 {
    match stands {
        Finding::Right => 0,
        Finding::Wrong => 1,
        Finding::Short => 2,
        Finding::Missing => 3,
    }
}

// What is due in six bytes: its kind, its number and its partner.
fn due_bytes(due: Due) -> [u8; 6] {
    match due {
        Due::AnEvent => [AN_EVENT, 0, 0, 0, 0, 0],
        Due::TheAnswer(code) => [THE_ANSWER, code, 0, 0, 0, 0],
        Due::TheAction(action) => {
            let Partner {
                kind,
                high,
                middle,
                low,
            } = action.partner;
            [THE_ACTION, action.number, kind, high, middle, low]
        }
    }
}

// Whether the judge answers what the vector says.
fn judged_is(v: &[u8]) -> bool {
    let verdict = judge(limits_of(v), v.rest(SHEET));
    let point = verdict.point;
    byte_at(v, CODE) == verdict.code
        && byte_at(v, FAULT) == fault_number(point.stands)
        && v.long_at(OFFSET) == point.at
        && v.long_at(RECORDS) == verdict.records
        && v.rest(DUE).begins(&due_bytes(point.due))
}

// Whether a vector of sheets holds; one of no operation does not.
pub(crate) fn sheet_holds(v: &[u8]) -> bool {
    match byte_at(v, 0) {
        JUDGE => judged_is(v),
        PRODUCE => making_holds(v),
        _ => false,
    }
}
