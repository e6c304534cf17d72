// A file of vectors, one after the other: each is the length of its body in two bytes, high byte first, and the body.
use crate::tally::Tally;
use std::io;
use std::io::Read;
use streams::files::open_read;
use streams::{fail, read_full};

// The most bytes of a vector of `judge_file`.
const LONGEST: usize = 8192;

// What is made of the vectors of a file.
pub trait Judge: Drop {
    // Judges the vector that stands next.
    fn judge<P: Print>(&mut self, out: &P, vector: &[u8]) -> io::Result<()>;

    // Counts a vector that the file cuts off: nothing can be read after it.
    fn cut_off<P: Print>(&mut self, out: &P) -> io::Result<()>;

    // Writes what came of them.
    fn report<P: Print>(&self, out: &P) -> io::Result<()>;
}

// What stands next in a file.
enum Next<'a> {
    Vector(&'a [u8]),
    CutOff,
    End,
}

// Reads what stands next into the room; a vector that it has no room for is held to be cut off.
fn read_next<'a, F: Read>(file: &mut F, room: &'a mut [u8]) -> io::Result<Next<'a>> {
    let mut head = [0u8; 2];
    let got = read_full(file, &mut head)?;
    if got < head.len() {
        return Ok(if got == 0 { Next::End } else { Next::CutOff });
    }
    let length = usize::from(u16::from_be_bytes(head));
    let Some(body) = room.get_mut(..length) else {
        return Ok(Next::CutOff);
    };
    if read_full(file, body)? < length {
        return Ok(Next::CutOff);
    }
    Ok(Next::Vector(body))
}

// A proved loop has to end, and nothing says that a file does: the turns are more than any run uses up.
fn judge_all<P: Print, F: Read, J: Judge>(
    out: &P,
    file: &mut F,
    room: &mut [u8],
    judge: &mut J,
) -> io::Result<()> {
    for _ in 0..u64::MAX {
        match read_next(file, room)? {
            Next::Vector(vector) => judge.judge(out, vector)?,
            Next::CutOff => return judge.cut_off(out),
            Next::End => return Ok(()),
        }
    }
    Ok(())
}

// Has all vectors of a file judged, each in a room of the most bytes that one may have, and writes the report to standard output; that the
// file cannot be opened is told on standard error.
pub fn judge_each<J: Judge>(
    rt: &HostRuntime,
    name: &[u8],
    room: &mut [u8],
    mut judge: J,
) -> io::Result<()> {
    match open_read(rt, name) {
        Ok(mut file) => {
            judge_all(rt, &mut file, room, &mut judge)?;
            judge.report(rt)
        }
        Err(error) => fail(&rt.stderr(), name, error),
    }
}

// A reference to an array of this length is lent on as a slice with no proof; an array of so many zeros is not.
fn judge_in(rt: &HostRuntime, name: &[u8], room: &mut [u8; LONGEST]) -> io::Result<()> {
    judge_each(rt, name, room, Tally::default())
}

// Judges all vectors of a file and writes the report to standard output; that the file cannot be opened is told on standard error.
pub fn judge_file(rt: &HostRuntime, name: &[u8]) -> io::Result<()> {
    let mut room = [0u8; LONGEST];
    judge_in(rt, name, &mut room)
}
