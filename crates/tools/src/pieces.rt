// A log told a piece at a time, since no room has the lines of every log: a line a record, and then the stop and the totals.
use crate::log::{StopLine, record_at};
use crate::text::{Count, write_list};
use crate::words::{Name, Said, kind_name, sent_name};
use record::event::Event;
use record::take::{Front, front_at};
use std::fmt;
use std::fmt::{Display, Formatter};
use unit::answer::{Action, Actions};
use unit::run::Totals;
use wire::byte::byte_at;
use wire::refusal::{ACCEPTED, Refusal};

// How many records of a log are told, and where they end.
#[derive(Clone, Copy, Default)]
pub(crate) struct Reached {
    pub(crate) read: usize,
    pub(crate) end: usize,
}

impl Reached {
    // After one more record, of so many bytes.
    pub(crate) fn after(self, bytes: usize) -> Reached {
        Reached {
            read: self.read.wrapping_add(1),
            end: self.end.wrapping_add(bytes),
        }
    }
}

// What tells of a log: how far it is, and what comes next.
pub(crate) trait Tale: Copy {
    // The records that are told.
    fn reached(self) -> Reached;

    // With the line of the record that follows, which these bytes are.
    fn with_record(self, bytes: &[u8], reading: Result<Event, Refusal>, out: &mut [u8]) -> Self;

    // With the last piece, of the run over the whole log.
    fn with_sum(self, log: &[u8], out: &mut [u8]) -> Self;
}

// The next piece: the line of the record that follows, or the stop and the totals, which are the last.
pub(crate) fn next_piece<T: Tale>(tale: T, log: &[u8], out: &mut [u8]) -> T {
    let end = tale.reached().end;
    match front_at(log, end) {
        Front::Next { reading, .. } => tale.with_record(record_at(log, end), reading, out),
        Front::Stop(_) => tale.with_sum(log, out),
    }
}

// The refusal of the start, else of the log.
pub(crate) fn code_of(started: u8, taken: u8) -> u8 {
    if started == ACCEPTED { taken } else { started }
}

// The name of the phase of this number.
pub(crate) fn phase_name(number: u8) -> &'static str {
    match number {
        1 => "Connecting",
        2 => "Contacting",
        3 => "Open",
        4 => "Lost",
        _ => "Ending",
    }
}

// The number of a record, where it stands, and what it says; where its fields mean nothing, its kind.
#[derive(Clone, Copy)]
pub(crate) struct Record<'a> {
    pub(crate) number: usize,
    pub(crate) offset: usize,
    pub(crate) reading: Result<Event, Refusal>,
    pub(crate) bytes: &'a [u8],
}

impl Display for Record<'_> {
    fn fmt<W: fmt::Write>(&self, f: &mut Formatter<W>) -> fmt::Result {
        write!(f, "{} at {}: ", self.number, self.offset)?;
        match self.reading {
            Ok(event) => write!(f, "{}", Said(event, byte_at(self.bytes, 1))),
            Err(_) => write!(f, "{}", kind_name(byte_at(self.bytes, 0))),
        }
    }
}

#[derive(Clone, Copy)]
struct Sent(Action);

impl Display for Sent {
    fn fmt<W: fmt::Write>(&self, f: &mut Formatter<W>) -> fmt::Result {
        let Action { number, partner } = self.0;
        let sent = sent_name(number);
        let name = Name(partner);
        write!(f, "{number} {sent} {name}")
    }
}

// What went out, in its order.
#[derive(Clone, Copy)]
pub(crate) struct Out(pub(crate) Actions);

impl Display for Out {
    fn fmt<W: fmt::Write>(&self, f: &mut Formatter<W>) -> fmt::Result {
        let Out(actions) = self;
        let sent = actions
            .items
            .iter()
            .take(actions.count)
            .map(|action| Sent(*action));
        write_list(f, sent, "nothing")
    }
}

// The stop of a run, how many records were read and how many of them refused, and how often each action went out.
#[derive(Clone, Copy)]
pub(crate) struct Sum<'a> {
    pub(crate) stop: StopLine<'a>,
    pub(crate) read: u32,
    pub(crate) refused: u32,
    pub(crate) totals: Totals,
}

fn times(n: u32) -> Count {
    Count(n as usize, "time", "times")
}

impl Display for Sum<'_> {
    fn fmt<W: fmt::Write>(&self, f: &mut Formatter<W>) -> fmt::Result {
        let Sum {
            stop,
            read,
            refused,
            totals,
        } = *self;
        let records = Count(read as usize, "record", "records");
        writeln!(f, "{stop}{records}, {refused} refused")?;
        write!(f, "went out: {} 21, ", times(totals.request))?;
        write!(f, "{} 22, ", times(totals.release))?;
        write!(f, "{} 154, ", times(totals.incompatible))?;
        write!(f, "{} 155, ", times(totals.initiate))?;
        write!(f, "{} 156, ", times(totals.terminate))?;
        writeln!(f, "{} 159", times(totals.established))
    }
}
