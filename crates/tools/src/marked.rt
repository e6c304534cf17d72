// What `resheftal marks` says: marks made of a log, extended, or compared with those of a file.
use crate::log::Records;
use crate::started::Start;
use crate::text::{Count, Told, put_text};
use crate::words::RefusalLine;
use marks::build::Marked;
use marks::mark::{MARK_EVERY, MARK_SIZE};
use place::limits::Limits;
use record::take::LONGEST_LOG;
use std::fmt;
use std::fmt::{Display, Formatter};
use wire::refusal::{ACCEPTED, Refusal};

// The most marks that a log can have, all its records of one byte; and their bytes.
pub const MOST_MARKS: usize = LONGEST_LOG / MARK_EVERY;

pub const MARKS_ROOM: usize = MOST_MARKS * MARK_SIZE;

// Why a mark leads nowhere.
pub(crate) const BAD_MARK: &str =
    " has another kind, an offset past the log, or an image that is not sound\n";

const KEPT: &str = "the file is as it was\n";

// What was told of marks that were to be made: how long the text is, and how many bytes the marks have, 0 of refused ones.
#[derive(Clone, Copy)]
pub struct Marking {
    pub length: usize,
    pub bytes: usize,
}

fn bytes_of(marks: usize) -> usize {
    marks.min(MOST_MARKS) * MARK_SIZE
}

// The marks that a room holds, so many.
fn marks_in(room: &[u8], marks: usize) -> &[u8] {
    room.get(..bytes_of(marks)).unwrap_or(room)
}

// So many marks, their bytes, and the records of the log that they are of.
#[derive(Clone, Copy)]
struct Sum<'a> {
    marks: usize,
    log: &'a [u8],
}

impl Display for Sum<'_> {
    fn fmt<W: fmt::Write>(&self, f: &mut Formatter<W>) -> fmt::Result {
        let marks = Count(self.marks, "mark", "marks");
        let bytes = bytes_of(self.marks);
        let records = Records(self.log);
        write!(f, "{marks}, {bytes} bytes, of {records}")
    }
}

// Why no marks were made.
#[derive(Clone, Copy)]
struct Unmarked(u8);

impl Display for Unmarked {
    fn fmt<W: fmt::Write>(&self, f: &mut Formatter<W>) -> fmt::Result {
        let code = self.0;
        if code == Refusal::NotSound.number() {
            return write!(f, "refused with {code}: the last mark{BAD_MARK}");
        }
        write!(f, "{}", RefusalLine(code, "the log"))
    }
}

// Tells of the marks that were made of this log.
pub fn built_text(limits: Limits, log: &[u8], marked: Marked, out: &mut [u8]) -> Marking {
    let Marked { code, marks } = marked;
    let at = put_text(out, 0, Start(limits));
    if code != ACCEPTED {
        return Marking {
            length: put_text(out, at, Unmarked(code)),
            bytes: 0,
        };
    }
    Marking {
        length: put_text(out, at, format_args!("made: {}", Sum { marks, log })),
        bytes: bytes_of(marks),
    }
}

// Tells of the marks that were extended, so many held before.
pub fn extended_text(
    limits: Limits,
    log: &[u8],
    held: usize,
    marked: Marked,
    out: &mut [u8],
) -> Marking {
    let Marked { code, marks } = marked;
    let at = put_text(out, 0, Start(limits));
    if code != ACCEPTED {
        return Marking {
            length: put_text(out, at, format_args!("{}{KEPT}", Unmarked(code))),
            bytes: 0,
        };
    }
    let before = Count(held, "mark was", "marks were");
    let sum = Sum { marks, log };
    let text = format_args!("extended: {before} there, and now there are {sum}");
    Marking {
        length: put_text(out, at, text),
        bytes: bytes_of(marks),
    }
}

// So many bytes of a file as marks, and what is no whole mark.
#[derive(Clone, Copy)]
struct Held(usize);

impl Display for Held {
    fn fmt<W: fmt::Write>(&self, f: &mut Formatter<W>) -> fmt::Result {
        let bytes = self.0;
        if bytes > MARKS_ROOM {
            return write!(f, "the file has more marks than any log, over {MOST_MARKS}");
        }
        let marks = Count(bytes / MARK_SIZE, "mark", "marks");
        let odd = Count(bytes % MARK_SIZE, "byte", "bytes");
        write!(f, "the file has {marks}")?;
        if odd.0 != 0 {
            write!(f, " and {odd}")?;
        }
        Ok(())
    }
}

// Tells that a file of so many bytes has no whole number of marks, and cannot be extended. Answers how long the text is.
pub fn odd_text(limits: Limits, bytes: usize, out: &mut [u8]) -> usize {
    let start = Start(limits);
    let held = Held(bytes);
    let text = format_args!(
        "{start}{held}, and each has {MARK_SIZE} bytes: it cannot be extended\n{KEPT}"
    );
    put_text(out, 0, text)
}

// Where two rows of bytes first differ; where one ends that is the front of the other.
fn first_difference(a: &[u8], b: &[u8]) -> usize {
    a.iter().zip(b).take_while(|(x, y)| *x == *y).count()
}

// The record that a mark stands after, with so many marks before it.
fn record_of(before: usize) -> usize {
    if before >= MOST_MARKS {
        return LONGEST_LOG;
    }
    (before + 1) * MARK_EVERY
}

// The first mark in which a file differs from the marks of the log: the one that has the first other byte; what the file has, and the log
// gives; and that the marks in the file are the first of the log's, where they are.
#[derive(Clone, Copy)]
struct Unlike<'a> {
    built: &'a [u8],
    held: &'a [u8],
}

impl Display for Unlike<'_> {
    fn fmt<W: fmt::Write>(&self, f: &mut Formatter<W>) -> fmt::Result {
        let Unlike { built, held } = *self;
        let offset = first_difference(built, held);
        let before = offset / MARK_SIZE;
        let mark = before.wrapping_add(1);
        let record = record_of(before);
        let at = bytes_of(before);
        let has = Held(held.len());
        let gives = Count(built.len() / MARK_SIZE, "mark", "marks");
        writeln!(
            f,
            "different at mark {mark}, after record {record}, at offset {at} of the file"
        )?;
        writeln!(f, "{has}, the log gives {gives}")?;
        if held.len() % MARK_SIZE == 0 && offset == held.len() {
            writeln!(
                f,
                "the marks in the file are right, and --extend adds the others"
            )?;
        }
        write!(f, "{KEPT}")
    }
}

// Tells whether a file holds the marks of this log, which were built into a room; if not, where the first difference is.
pub fn compared_text(
    limits: Limits,
    log: &[u8],
    marked: Marked,
    room: &[u8],
    held: &[u8],
    out: &mut [u8],
) -> Told {
    let Marked { code, marks } = marked;
    let at = put_text(out, 0, Start(limits));
    if code != ACCEPTED {
        return Told {
            length: put_text(out, at, format_args!("{}{KEPT}", Unmarked(code))),
            accepted: false,
        };
    }
    let built = marks_in(room, marks);
    if built == held {
        return Told {
            length: put_text(out, at, format_args!("the same: {}", Sum { marks, log })),
            accepted: true,
        };
    }
    Told {
        length: put_text(out, at, Unlike { built, held }),
        accepted: false,
    }
}
