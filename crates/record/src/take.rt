// Taking one record off the front of a log, before it is applied.
ghost use Rattle.std.specs.Prelude.{◌≡◌, drop};
ghost use Rattle.record.specs.Takes.{take_one, taken};
ghost use Rattle.record.specs.Stops.{told_front, told_taken};

use crate::event::Event;
use crate::read::{KIND_MESSAGE, NO_KIND, fields_of, length_of};
use crate::stop::Stop;
use wire::refusal::Refusal;

// The longest log.
pub const LONGEST_LOG: usize = 1_048_576;

// What stands at a place of a log: a whole record, its length and what it means; or the stop.
#[derive(Clone, Copy)]
pub enum Front {
    Next {
        length: usize,
        reading: Result<Event, Refusal>,
    },
    Stop(Stop),
}

// What stands at a place of a log: a whole record, or stop 0, 2 or 3. How long the log is, is not tested.
pub fn front_at(log: &[u8], at: usize) -> Front
    ensures { told_front result ≡ take_one (drop at log.now) }
{
    if at >= log.len() {
        return Front::Stop(Stop::NothingLeft);
    }
    let kind = log[at];
    if kind == NO_KIND {
        return Front::Stop(Stop::KindUnknown);
    }
    if kind > KIND_MESSAGE {
        return Front::Stop(Stop::KindUnknown);
    }
    let length = length_of(kind);
    if log.len() - at < length {
        return Front::Stop(Stop::RecordShort);
    }
    Front::Next {
        length,
        reading: fields_of(kind, &log[at..at + length]),
    }
}

// Takes one record off the front of what is handed over: the record, or stop 0, 2 or 3; refusal 12 over 1,048,576 bytes.
pub fn take(log: &[u8]) -> Result<Front, Refusal>
    ensures { told_taken result ≡ taken log.now }
{
    if log.len() > LONGEST_LOG {
        return Err(Refusal::LogTooLong);
    }
    Ok(front_at(log, 0))
}
