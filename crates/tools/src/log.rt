// A log by the lengths of its records, none of which is stepped: how many it has, where so many end, and its stop.
use crate::standing::end_of;
use crate::text::Count;
use crate::words::stop_name;
use record::stop::Stop;
use record::take::{Front, front_at};
use std::fmt;
use std::fmt::{Display, Formatter};
use wire::byte::byte_at;

// So many records of a log, where they end, and the stop there; another record may follow where it is the budget's.
#[derive(Clone, Copy)]
struct Extent {
    records: usize,
    end: usize,
    stop: u8,
}

// All records of a log before its stop. Each has a byte, so that there are no more than bytes.
fn extent_of(log: &[u8]) -> Extent {
    let mut extent = Extent {
        records: 0,
        end: 0,
        stop: Stop::BudgetUsed.number(),
    };
    for _ in 0..=log.len() {
        match front_at(log, extent.end) {
            Front::Next { .. } => {
                extent.records = extent.records.wrapping_add(1);
                extent.end = end_of(log, extent.end);
            }
            Front::Stop(stop) => {
                extent.stop = stop.number();
                break;
            }
        }
    }
    extent
}

// The record that stands at an offset of a log; nothing past its end.
pub(crate) fn record_at(log: &[u8], at: usize) -> &[u8] {
    log.get(at..end_of(log, at)).unwrap_or(&[])
}

// How many records a log has.
pub(crate) fn records_of(log: &[u8]) -> usize {
    extent_of(log).records
}

// Where so many records of a log end.
pub(crate) fn stopped_at(log: &[u8], records: usize) -> usize {
    (0..records).fold(0, |at, _| end_of(log, at))
}

// The line of a stop: where it was in the log, why, and the kind that stands there, if one does.
#[derive(Clone, Copy)]
pub(crate) struct StopLine<'a> {
    pub(crate) stop: u8,
    pub(crate) log: &'a [u8],
    pub(crate) offset: usize,
}

impl Display for StopLine<'_> {
    fn fmt<W: fmt::Write>(&self, f: &mut Formatter<W>) -> fmt::Result {
        let StopLine { stop, log, offset } = *self;
        let name = stop_name(stop);
        write!(f, "stop {stop} at offset {offset} of the log: {name}")?;
        if stop != Stop::NothingLeft.number() {
            write!(f, ", kind {}", byte_at(log, offset))?;
        }
        writeln!(f)
    }
}

// How many records a log has, and its stop.
#[derive(Clone, Copy)]
pub(crate) struct Records<'a>(pub(crate) &'a [u8]);

impl Display for Records<'_> {
    fn fmt<W: fmt::Write>(&self, f: &mut Formatter<W>) -> fmt::Result {
        let log = self.0;
        let Extent { records, end, stop } = extent_of(log);
        let count = Count(records, "record", "records");
        let stopped = StopLine {
            stop,
            log,
            offset: end,
        };
        write!(f, "{count}\n{stopped}")
    }
}
