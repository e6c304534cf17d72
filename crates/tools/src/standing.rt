// What stands in a sheet: how long a record is, its line of bytes and words, and where the last event records begin.
use crate::text::Hex;
use crate::words::{Answered, Said, Sent, is_action, kind_name};
use judge::due::{ANSWER_KIND, ANSWER_SIZE};
use record::partner::Partner;
use record::read::{length_of, read};
use std::fmt;
use std::fmt::{Display, Formatter};
use unit::answer::Action;
use unit::bytes::ACTION_SIZE;
use wire::byte::byte_at;
use wire::refusal::Refusal;

// How long the record is that begins with this byte: an event record, an answer, an action; of an unknown kind the byte alone.
fn length_by(kind: u8) -> usize {
    if kind == ANSWER_KIND {
        return ANSWER_SIZE;
    }
    if is_action(kind) {
        return ACTION_SIZE;
    }
    length_of(kind).max(1)
}

// Where the record at an offset ends; the sheet's end where it is cut off.
pub(crate) fn end_of(sheet: &[u8], at: usize) -> usize {
    let length = length_by(byte_at(sheet, at));
    at.saturating_add(length).min(sheet.len())
}

fn action_in(bytes: &[u8]) -> Action {
    Action {
        number: byte_at(bytes, 0),
        partner: Partner {
            kind: byte_at(bytes, 1),
            high: byte_at(bytes, 2),
            middle: byte_at(bytes, 3),
            low: byte_at(bytes, 4),
        },
    }
}

// The record that begins with this byte, where its fields are not told.
#[derive(Clone, Copy)]
struct Kind(u8);

impl Display for Kind {
    fn fmt<W: fmt::Write>(&self, f: &mut Formatter<W>) -> fmt::Result {
        let kind = self.0;
        if kind == ANSWER_KIND {
            return write!(f, "an answer");
        }
        if is_action(kind) {
            return write!(f, "action {kind}");
        }
        write!(f, "{}", kind_name(kind))
    }
}

// A record that means no event, by the refusal of its reading.
fn write_unread<W: fmt::Write>(f: &mut Formatter<W>, kind: u8, refusal: Refusal) -> fmt::Result {
    if refusal == Refusal::UnknownKind {
        return write!(f, "kind {kind}, which no record of a sheet has");
    }
    write!(f, "{}, a field is outside its range", kind_name(kind))
}

// A record in words, whole or cut off.
#[derive(Clone, Copy)]
struct Words<'a>(&'a [u8]);

impl Display for Words<'_> {
    fn fmt<W: fmt::Write>(&self, f: &mut Formatter<W>) -> fmt::Result {
        let bytes = self.0;
        let kind = byte_at(bytes, 0);
        let length = length_by(kind);
        if bytes.len() < length {
            let name = Kind(kind);
            let stand = bytes.len();
            return write!(f, "{name}, cut off: {stand} of its {length} bytes");
        }
        if kind == ANSWER_KIND {
            return write!(f, "{}", Answered(byte_at(bytes, 1)));
        }
        if is_action(kind) {
            return write!(f, "{}", Sent(action_in(bytes)));
        }
        match read(bytes) {
            Ok(event) => write!(f, "{}", Said(event, byte_at(bytes, 1))),
            Err(refusal) => write_unread(f, kind, refusal),
        }
    }
}

// The line of a record: its offset, its bytes in hex, and its words.
#[derive(Clone, Copy)]
pub(crate) struct RecordLine<'a> {
    pub(crate) offset: usize,
    pub(crate) bytes: &'a [u8],
}

impl Display for RecordLine<'_> {
    fn fmt<W: fmt::Write>(&self, f: &mut Formatter<W>) -> fmt::Result {
        let offset = self.offset;
        let hex = Hex(self.bytes);
        let words = Words(self.bytes);
        writeln!(f, "  {offset}:{hex} - {words}")
    }
}

// The line of the record that stands at an offset of a sheet; none past its end.
#[derive(Clone, Copy)]
pub(crate) struct LineAt<'a> {
    pub(crate) sheet: &'a [u8],
    pub(crate) offset: usize,
}

impl Display for LineAt<'_> {
    fn fmt<W: fmt::Write>(&self, f: &mut Formatter<W>) -> fmt::Result {
        let LineAt { sheet, offset } = *self;
        match sheet.get(offset..end_of(sheet, offset)) {
            Some(bytes) => write!(f, "{}", RecordLine { offset, bytes }),
            None => Ok(()),
        }
    }
}

// The lines of the records from an offset of a sheet up to another. Each record has a byte, so that there are no more than bytes.
#[derive(Clone, Copy)]
pub(crate) struct Lines<'a> {
    pub(crate) sheet: &'a [u8],
    pub(crate) from: usize,
    pub(crate) end: usize,
}

impl Display for Lines<'_> {
    fn fmt<W: fmt::Write>(&self, f: &mut Formatter<W>) -> fmt::Result {
        let Lines { sheet, from, end } = *self;
        let mut offset = from;
        for _ in 0..end {
            if offset >= end {
                break;
            }
            write!(f, "{}", LineAt { sheet, offset })?;
            offset = end_of(sheet, offset);
        }
        Ok(())
    }
}

// The last event records before an offset: where the last but one and the last begin, and how many records stand behind the last.
#[derive(Clone, Copy, Default)]
pub(crate) struct Entries {
    pub(crate) before: usize,
    pub(crate) last: usize,
    pub(crate) behind: usize,
}

impl Entries {
    // With one more record, of this kind and at this offset.
    fn with(self, kind: u8, at: usize) -> Entries {
        if length_of(kind) == 0 {
            return Entries {
                behind: self.behind.wrapping_add(1),
                ..self
            };
        }
        Entries {
            before: self.last,
            last: at,
            behind: 0,
        }
    }
}

// The last event records of a sheet before this offset, where a record begins.
pub(crate) fn entries_before(sheet: &[u8], end: usize) -> Entries {
    let mut entries = Entries::default();
    let mut at = 0;
    for _ in 0..end {
        if at >= end {
            break;
        }
        entries = entries.with(byte_at(sheet, at), at);
        at = end_of(sheet, at);
    }
    entries
}
