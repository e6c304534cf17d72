// A whole sheet: the log run once, a line put for each record as it is applied.
ghost use Rattle.std.specs.Prelude.{◌≡◌, ◌+◌, length};
ghost use Rattle.record.specs.Stops.{stop_number};
ghost use Rattle.text.specs.Texts.{end_text};
ghost use Rattle.text.specs.Sheets.{sheet_count, sheet_placed};
ghost use Rattle.text.specs.Making.{put_at, HasRoom, Put};
ghost use Rattle.text.specs.Pages.{next_line, next_page, to_come, Ready, Follows};

use crate::{put_end, put_line, put_words};
use place::limits::{FLEET_TRIES, Limits};
use record::stop::Stop;
use record::take::{Front, front_at};
use unit::start::cold_start;
use unit::state::State;
use wire::byte::byte_at;

// The longest input.
const MOST_INPUT: usize = 4096;

// Room for every sheet.
pub const SHEET_ROOM: usize = 786_646;

// X 1 to 2.
const LOWEST_X: u8 = 1;

const HIGHEST_X: u8 = 2;

// A sheet so far: the state, the offset reached in the input, the records told, and the bytes written.
#[derive(Clone, Copy)]
struct Page {
    state: State,
    at: usize,
    number: u32,
    used: usize,
}

impl Page {
    // The sheet with the line of this record.
    fn next(self, bytes: &[u8], buffer: &mut [u8]) -> Page
        requires { Follows self bytes.now buffer.old }
        ensures { (result ≡ next_page self bytes.now)
            × (buffer.new
            ≡ put_at (next_line self bytes.now) self.used buffer.old) }
    {
        let state = self.state;
        let answer = state.apply(bytes);
        let actions = answer.actions;
        let next = answer.state;
        let number = self.number + 1;
        let kind = byte_at(bytes, 0);
        let used = put_line(buffer, self.used, number, kind, answer.code, actions);
        Page {
            state: next,
            at: self.at + bytes.len(),
            number,
            used,
        }
    }

    // The last line; answers how long the sheet is.
    fn end(self, stop: Stop, buffer: &mut [u8]) -> usize
        requires { HasRoom (end_text (stop_number stop) self.number) self.used buffer.old }
        ensures { Put (end_text (stop_number stop) self.number) self.used buffer.old result buffer.new }
    {
        put_end(buffer, self.used, stop.number(), self.number)
    }

    // The rest of the sheet, from the record at the offset reached to the last line; answers how long the sheet is.
    // The budget is not tested: a record has at least one byte, so that 4,096 bytes hold at most 4,096 records, and when these are read
    // nothing is left.
    fn fill(self, input: &[u8], buffer: &mut [u8]) -> usize
        requires { Ready self input.now buffer.old }
        ensures { Put (to_come self input.now) self.used buffer.old result buffer.new }
    {
        let mut page = self;
        loop {
            let at = page.at;
            match front_at(input, at) {
                Front::Stop(stop) => {
                    break page.end(stop, buffer);
                }
                Front::Next { length, .. } => {
                    let end = at + length;
                    page = page.next(&input[at..end], buffer);
                }
            }
        }
    }
}

// Puts the sheet of an input to the front of a buffer and answers its length; where not every sheet has room, 0 and nothing written.
pub fn sheet_into(input: &[u8], buffer: &mut [u8]) -> usize
    ensures { (result ≡ sheet_count input.now (length buffer.old))
        × (buffer.new
        ≡ sheet_placed input.now buffer.old) }
{
    if buffer.len() < SHEET_ROOM {
        return 0;
    }
    if input.len() > MOST_INPUT {
        return put_words(buffer, 0, b"too long\n");
    }
    let start = cold_start(Limits {
        lowest: LOWEST_X,
        highest: HIGHEST_X,
        tries: FLEET_TRIES,
    });
    let state = start.state;
    let used = put_words(buffer, 0, b"rec kind code actions\n");
    let page = Page {
        state,
        at: 0,
        number: 0,
        used,
    };
    page.fill(input, buffer)
}
