// A log of 30,000 records: the log of five, repeated; its marks, and states in it with and without them.
use crate::{front, read};
use marks::build::{build, extend};
use marks::mark::{MARK_EVERY, MARK_SIZE};
use place::limits::{DEFAULT_TRIES, Limits};
use std::io;
use streams::{buffer, large_buffer};
use tools::marked::{MARKS_ROOM, built_text, compared_text, extended_text, odd_text};
use tools::stepped::{marked_state_text, state_text};
use tools::text::put;

// How often the log of five stands in the long one, the bytes of its first record, and those of half of the long one.
const BLOCKS: usize = 6_000;

const FIRST: usize = 7;

const HALF: usize = 93_000;

// The marks of the long log and of half of it, and a record behind the last of them.
const MARKS: usize = 30_000 / MARK_EVERY;

const HALF_MARKS: usize = 15_000 / MARK_EVERY;

const LATE: usize = 29_998;

// The record of a mark whose offset is inside a record where the first of the log is left out.
const INSIDE: usize = 116 * MARK_EVERY;

// A log whose marks and states are told, from a start with these limits.
#[derive(Clone, Copy)]
struct Marked<'a> {
    rt: &'a HostRuntime,
    limits: Limits,
    log: &'a [u8],
}

impl Marked<'_> {
    // Prints what is told in a room, after its name.
    fn say(self, name: &str, room: &[u8], length: usize) -> io::Result<()> {
        let rt = self.rt;
        println!(rt; "{name}")?;
        rt.write_all(front(room, length))
    }

    fn built(self, name: &str, room: &mut [u8]) -> io::Result<()> {
        let mut out = buffer();
        let marked = build(self.limits, self.log, room);
        let told = built_text(self.limits, self.log, marked, &mut out);
        self.say(name, &out, told.length)
    }

    // Builds the marks afresh, and compares what a file holds with them.
    fn compared(self, name: &str, held: &[u8]) -> io::Result<()> {
        let mut out = buffer();
        let mut room = large_buffer();
        let marked = build(self.limits, self.log, &mut room);
        let told = compared_text(self.limits, self.log, marked, &room, held, &mut out);
        self.say(name, &out, told.length)
    }

    // Extends the marks that a room holds, so many.
    fn extended(self, name: &str, held: usize, room: &mut [u8]) -> io::Result<()> {
        let mut out = buffer();
        let marked = extend(self.limits, self.log, held, room);
        let told = extended_text(self.limits, self.log, held, marked, &mut out);
        self.say(name, &out, told.length)
    }

    fn odd(self, name: &str, bytes: usize) -> io::Result<()> {
        let mut out = buffer();
        let length = odd_text(self.limits, bytes, &mut out);
        self.say(name, &out, length)
    }

    fn state(self, name: &str, record: usize) -> io::Result<()> {
        let mut out = buffer();
        let told = state_text(self.limits, self.log, record, &mut out);
        self.say(name, &out, told.length)
    }

    fn marked(self, name: &str, marks: &[u8], record: usize) -> io::Result<()> {
        let mut out = buffer();
        let told = marked_state_text(self.limits, self.log, marks, record, &mut out);
        self.say(name, &out, told.length)
    }

    // The first half of the log.
    fn half(self) -> Self {
        Marked {
            log: front(self.log, HALF),
            ..self
        }
    }
}

// Fills a room with a block of bytes, one behind the other.
fn repeat(block: &[u8], room: &mut [u8]) {
    let mut at = 0;
    for _ in 0..BLOCKS {
        at = put(room, at, block);
    }
}

// Clears a byte.
fn spoil(room: &mut [u8], at: usize) {
    if let Some(byte) = room.get_mut(at) {
        *byte = 0;
    }
}

fn make(good: Marked, bad: Marked, room: &mut [u8]) -> io::Result<()> {
    bad.built("marks, no tries", room)?;
    good.built("marks", room)
}

// Marks compared with what a file holds.
fn compare(good: Marked, bad: Marked, held: &[u8]) -> io::Result<()> {
    let first = front(held, HALF_MARKS * MARK_SIZE);
    good.compared("marks, the same", held)?;
    bad.compared("marks, no tries, some there", held)?;
    good.half().compared("marks, some more there", held)?;
    good.compared("marks, some missing", first)?;
    good.compared("marks, one cut", front(held, MARK_SIZE + 1))
}

// Marks extended, of which so many are there.
fn grow(good: Marked, room: &mut [u8]) -> io::Result<()> {
    let half = good.half();
    half.built("marks of half", room)?;
    good.extended("marks, extended", HALF_MARKS, room)?;
    good.compared("marks, extended, the same", front(room, MARKS * MARK_SIZE))?;
    good.odd("marks, one cut, not extended", MARK_SIZE + 1)?;
    good.odd("marks, too many", MARKS_ROOM + 1)?;
    half.extended("marks, past the log", MARKS, room)
}

// States by a record's number.
fn look(good: Marked, bad: Marked, marks: &[u8]) -> io::Result<()> {
    let half = front(marks, HALF_MARKS * MARK_SIZE);
    good.state("state", LATE)?;
    good.marked("state, marks", marks, LATE)?;
    good.state("state, the start", 0)?;
    good.state("state, past the log", 30_001)?;
    bad.state("state, no tries", 1)?;
    good.marked("state, marks, past the log", marks, 30_001)?;
    good.marked("state, marks of half", half, LATE)
}

// States by marks of another start, and by marks of another log.
fn look_by_others(good: Marked, marks: &[u8]) -> io::Result<()> {
    let mut restarted = good;
    restarted.limits.tries = DEFAULT_TRIES;
    restarted.marked("state, marks of another start", marks, LATE)?;
    let mut other = good;
    other.log = good.log.get(FIRST..).unwrap_or(good.log);
    other.marked("state, marks of another log", marks, INSIDE)?;
    other.marked("state, marks of another log, a step", marks, INSIDE + 1)
}

// One mark spoilt: of the first its image, of the last its kind.
fn mark_spoilt(good: Marked, room: &mut [u8]) -> io::Result<()> {
    spoil(room, MARK_SIZE - 1);
    good.compared("marks, one spoilt", front(room, MARKS * MARK_SIZE))?;
    spoil(room, (MARKS - 1) * MARK_SIZE);
    good.extended("marks, the last spoilt", MARKS, room)?;
    good.marked("state, marks, the last spoilt", room, LATE)
}

fn mark_log(good: Marked, bad: Marked) -> io::Result<()> {
    let mut room = large_buffer();
    make(good, bad, &mut room)?;
    compare(good, bad, front(&room, MARKS * MARK_SIZE))?;
    grow(good, &mut room)?;
    look(good, bad, front(&room, MARKS * MARK_SIZE))?;
    look_by_others(good, front(&room, MARKS * MARK_SIZE))?;
    mark_spoilt(good, &mut room)
}

// A reference to an array of this length is lent on as a slice with no proof; an array of so many zeros is not.
fn mark_filled(
    rt: &HostRuntime,
    limits: Limits,
    bad: Limits,
    log: &mut [u8; 186000],
) -> io::Result<()> {
    let mut block = buffer();
    repeat(read(rt, "log.bin", &mut block)?, log);
    let good = Marked { rt, limits, log };
    mark_log(
        good,
        Marked {
            limits: bad,
            ..good
        },
    )
}

// Prints what is told of the log of 30,000 records, with these limits and with bad ones.
pub(crate) fn mark_all(rt: &HostRuntime, limits: Limits, bad: Limits) -> io::Result<()> {
    let mut log = [0u8; 186000];
    mark_filled(rt, limits, bad, &mut log)
}
