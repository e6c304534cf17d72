// What `resheftal shunter` prints, a piece at a time: what the shunter is started with; a line a record, with its answer, what went out and
// who holds a modem then; the stop, and how often each action went out.
use crate::log::StopLine;
use crate::pieces::{Out, Reached, Record, Sum, Tale, code_of, next_piece, phase_name};
use crate::started::Start;
use crate::text::{put_text, write_list};
use crate::words::{Name, RefusalLine, reason};
use place::limits::Limits;
use place::place::{Holding, Place};
use record::event::Event;
use record::take::LONGEST_LOG;
use shunter::answer::Shunted;
use shunter::queue::Queue;
use shunter::run::run;
use shunter::start::fit;
use shunter::state::Shunter;
use shunter::step::{MODEM_MISSING, PLACE_WAITS};
use std::fmt;
use std::fmt::{Display, Formatter};
use unit::search::Standing;
use wire::refusal::{ACCEPTED, Refusal};

// How far a log is told: how long the last piece is, whether another follows, and whether the log is taken; the shunter at its start and
// after the records that are told.
#[derive(Clone, Copy)]
pub struct Telling {
    pub length: usize,
    pub more: bool,
    pub accepted: bool,
    start: Shunter,
    shunter: Shunter,
    reached: Reached,
}

// Why the shunter refuses an event record.
fn shunter_reason(code: u8) -> &'static str {
    match code {
        MODEM_MISSING => "no modem is free",
        PLACE_WAITS => "the partner waits for a modem",
        _ => reason(code),
    }
}

// The answer to a record, and where the partner stands, if that is said.
#[derive(Clone, Copy)]
struct Answered {
    code: u8,
    standing: Standing,
}

impl Display for Answered {
    fn fmt<W: fmt::Write>(&self, f: &mut Formatter<W>) -> fmt::Result {
        let Answered { code, standing } = *self;
        if code == ACCEPTED {
            return write!(f, "accepted");
        }
        write!(f, "refused with {}: {}", code, shunter_reason(code))?;
        if standing.phase == 0 {
            return Ok(());
        }
        write!(
            f,
            " (place {}, {})",
            standing.place,
            phase_name(standing.phase)
        )
    }
}

fn waits(queue: Queue, place: usize) -> bool {
    queue.first == place || queue.second == place
}

// Who holds a place, if one does.
fn holder(place: &Place) -> Option<Name> {
    match place.holding {
        Holding::Free => None,
        Holding::Held { partner, .. } => Some(Name(partner)),
    }
}

// Who holds a modem, by the numbers of the places: each that has a place and does not wait.
#[derive(Clone, Copy)]
struct Modems(Shunter);

impl Display for Modems {
    fn fmt<W: fmt::Write>(&self, f: &mut Formatter<W>) -> fmt::Result {
        let Shunter { state, queue } = self.0;
        let held = state
            .places
            .iter()
            .enumerate()
            .filter(|(number, _)| !waits(queue, *number))
            .filter_map(|(_, place)| holder(place));
        write_list(f, held, "nobody")
    }
}

// Who waits, the longest waiting first.
#[derive(Clone, Copy)]
struct Waiting(Shunter);

impl Display for Waiting {
    fn fmt<W: fmt::Write>(&self, f: &mut Formatter<W>) -> fmt::Result {
        let Shunter { state, queue } = self.0;
        let numbers = [queue.first, queue.second];
        let waiting = numbers
            .iter()
            .filter_map(|number| state.places.get(*number))
            .filter_map(|place| holder(place));
        write_list(f, waiting, "nobody")
    }
}

// What the shunter answered, what went out, and how the modems stand then.
#[derive(Clone, Copy)]
struct Step(Shunted);

impl Display for Step {
    fn fmt<W: fmt::Write>(&self, f: &mut Formatter<W>) -> fmt::Result {
        let Shunted {
            code,
            shunter,
            actions,
            standing,
        } = self.0;
        let answered = Answered { code, standing };
        let out = Out(actions);
        let modems = Modems(shunter);
        let waiting = Waiting(shunter);
        writeln!(
            f,
            " - {answered}; out: {out}; modems: {modems}; waiting: {waiting}"
        )
    }
}

impl Telling {
    // Before the first record, with a first piece of this length.
    fn begun(shunter: Shunter, length: usize, taken: bool) -> Telling {
        Telling {
            length,
            more: taken,
            accepted: taken,
            start: shunter,
            shunter,
            reached: Reached::default(),
        }
    }
}

impl Tale for Telling {
    fn reached(self) -> Reached {
        self.reached
    }

    fn with_record(self, bytes: &[u8], reading: Result<Event, Refusal>, out: &mut [u8]) -> Telling {
        let reached = self.reached.after(bytes.len());
        let shunted = self.shunter.apply(bytes);
        let record = Record {
            number: reached.read,
            offset: self.reached.end,
            reading,
            bytes,
        };
        let step = Step(shunted);
        Telling {
            length: put_text(out, 0, format_args!("{record}{step}")),
            more: true,
            accepted: true,
            shunter: shunted.shunter,
            reached,
            ..self
        }
    }

    fn with_sum(self, log: &[u8], out: &mut [u8]) -> Telling {
        let report = run(self.start, log, LONGEST_LOG);
        let tally = report.tally;
        let sum = Sum {
            stop: StopLine {
                stop: report.stop,
                log,
                offset: tally.offset,
            },
            read: tally.read,
            refused: tally.refused,
            totals: tally.totals,
        };
        Telling {
            length: put_text(out, 0, sum),
            more: false,
            accepted: true,
            ..self
        }
    }
}

// Tells what the shunter is started with for this log, and why it or the log is refused, where one is: the first piece.
pub fn shunter_text(limits: Limits, log: &[u8], out: &mut [u8]) -> Telling {
    let fitted = fit(limits);
    let report = run(fitted.shunter, log, 0);
    let code = code_of(fitted.code, report.code);
    let at = put_text(out, 0, Start(limits));
    if code == ACCEPTED {
        return Telling::begun(fitted.shunter, at, true);
    }
    let length = put_text(out, at, RefusalLine(code, "the log"));
    Telling::begun(fitted.shunter, length, false)
}

// Tells the next piece of the same log: the line of the record that follows, or the stop and the totals, which are the last.
pub fn shunter_next_text(telling: Telling, log: &[u8], out: &mut [u8]) -> Telling {
    next_piece(telling, log, out)
}
