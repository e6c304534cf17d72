#![tactic(auto)]
// The body of `sheet` and `sheets`: a log from an input, its sheet to standard output.
ghost use Rattle.std.specs.Prelude.{◌≤◌, length};
ghost use Rattle.text.specs.Sheets.{sheet_room};

use std::io;
use std::io::Read;
use streams::read_full;
use text::sheet::sheet_into;

// The sheet, made in a room that holds every sheet. A byte more than the longest input is read, so that a longer one is known.
fn print(out: &impl Print, input: &mut impl Read, room: &mut [u8]) -> io::Result<()>
    requires { sheet_room ≤ length room.old }
{
    let mut log = [0u8; 4097];
    let n = read_full(input, &mut log)?;
    let used = sheet_into(&log[..n], room);
    out.write_all(&room[..used])
}

// A reference to an array of this length is lent on as a slice with no proof; an array of so many zeros is not.
fn lent(out: &impl Print, input: &mut impl Read, room: &mut [u8; 786646]) -> io::Result<()> {
    print(out, input, room)
}

// Prints the sheet of the log that an input holds.
pub fn sheet(out: &impl Print, input: &mut impl Read) -> io::Result<()> {
    let mut room = [0u8; 786646];
    lent(out, input, &mut room)
}
