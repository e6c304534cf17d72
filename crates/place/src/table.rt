// The phase table of document 01: what each phase makes of each event that names a partner.
ghost use Rattle.place.specs.Cells.{Draws};

// The event is not taken.
pub(crate) const NO: u8 = 0;

// The place is closed.
pub(crate) const CLOSE: u8 = 1;

// 22; free.
pub(crate) const FREE: u8 = 2;

// 155; Contacting 1.
pub(crate) const CONTACT: u8 = 3;

// 21; Lost 1.
pub(crate) const LOSE: u8 = 4;

// Open.
pub(crate) const REOPEN: u8 = 5;

// A timeout's 21, 155 or 156: sent again while fewer tries than the limit were used.
pub(crate) const REQUEST_AGAIN: u8 = 6;

pub(crate) const INITIATE_AGAIN: u8 = 7;

pub(crate) const TERMINATE_AGAIN: u8 = 8;

// The version is judged.
pub(crate) const JUDGE: u8 = 9;

// The rows and the columns.
const PHASES: usize = 5;

const EVENTS: usize = 6;

// A row for each phase: Connecting, Contacting, Open, Lost, Ending; a column for each event: drop, up, lost, timeout, 32, 39.
const TABLE: [[u8; 6]; 5] = [
    [CLOSE, CONTACT, NO, REQUEST_AGAIN, NO, NO],
    [CLOSE, NO, FREE, INITIATE_AGAIN, JUDGE, NO],
    [CLOSE, NO, LOSE, NO, NO, NO],
    [CLOSE, REOPEN, NO, REQUEST_AGAIN, NO, NO],
    [NO, NO, FREE, TERMINATE_AGAIN, NO, FREE],
];

// The number at a row and a column; outside the table no event is taken.
pub(crate) fn cell_at(row: usize, column: usize) -> u8
    ensures { Draws row column result }
{
    if row < PHASES {
        if column < EVENTS {
            return TABLE[row][column];
        }
    }
    NO
}
