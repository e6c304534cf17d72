// What `resheftal state` prints: the state after a record of a log, and the record that led there.
use crate::log::{Records, records_of, stopped_at};
use crate::marked::BAD_MARK;
use crate::standing::{LineAt, end_of};
use crate::started::{Start, same_limits};
use crate::state::AllOf;
use crate::text::{Count, Told, put_text};
use crate::words::RefusalLine;
use marks::lookup::{Looked, NO_MARK, look_up};
use marks::mark::{MARK_EVERY, MARK_SIZE};
use place::limits::Limits;
use std::fmt;
use std::fmt::{Display, Formatter};
use unit::run::run;
use unit::start::cold_start;
use wire::refusal::{ACCEPTED, Refusal};

// Behind what shows it: that the marks are those of another log.
const FOREIGN: &str = ": the marks are not those of this log\n";

// What is asked for: a start, a log, the number of a record, the mark that it calls for (0 is the start), and how many marks there are.
#[derive(Clone, Copy)]
struct Called<'a> {
    limits: Limits,
    log: &'a [u8],
    record: usize,
    mark: usize,
    held: usize,
}

// As a lookup answers, with every record stepped from the start on.
fn stepped(limits: Limits, log: &[u8], record: usize) -> Looked {
    let started = cold_start(limits);
    if started.code != ACCEPTED {
        return Looked {
            code: started.code,
            state: started.state,
            steps: 0,
            offset: 0,
        };
    }
    let report = run(started.state, log, record);
    let steps = report.tally.read as usize;
    Looked {
        code: match report.code {
            ACCEPTED if steps != record => NO_MARK,
            code => code,
        },
        state: report.tally.state,
        steps,
        offset: report.tally.offset,
    }
}

// Behind the number of refusal 19: that the mark is not there, or that the log stops before the record; from a mark inside one of its
// records that may be, although it has as many.
#[derive(Clone, Copy)]
struct NoMark<'a>(Called<'a>);

impl Display for NoMark<'_> {
    fn fmt<W: fmt::Write>(&self, f: &mut Formatter<W>) -> fmt::Result {
        let Called {
            log,
            record,
            mark,
            held,
            ..
        } = self.0;
        if held < mark {
            let marks = Count(held, "mark", "marks");
            return writeln!(
                f,
                ": mark {mark}, which record {record} calls for, is not there: the file has {marks}"
            );
        }
        if records_of(log) < record {
            let records = Records(log);
            return write!(
                f,
                ": the log stops before record {record}: it has {records}"
            );
        }
        write!(
            f,
            ": from mark {mark} on the log stops before record {record}{FOREIGN}"
        )
    }
}

// Why no state is told.
#[derive(Clone, Copy)]
struct NotFound<'a> {
    code: u8,
    called: Called<'a>,
}

impl Display for NotFound<'_> {
    fn fmt<W: fmt::Write>(&self, f: &mut Formatter<W>) -> fmt::Result {
        let Called { record, mark, .. } = self.called;
        let code = self.code;
        if code == NO_MARK {
            return write!(f, "refused with {NO_MARK}{}", NoMark(self.called));
        }
        if code == Refusal::NotSound.number() {
            return write!(
                f,
                "refused with {code}: mark {mark}, which record {record} calls for,{BAD_MARK}"
            );
        }
        write!(f, "{}", RefusalLine(code, "the log"))
    }
}

// How many records were stepped, and from where.
#[derive(Clone, Copy)]
struct Steps {
    steps: usize,
    mark: usize,
}

impl Display for Steps {
    fn fmt<W: fmt::Write>(&self, f: &mut Formatter<W>) -> fmt::Result {
        let mark = self.mark;
        let records = Count(self.steps, "record", "records");
        if mark == 0 {
            return write!(f, "stepped {records} from the start");
        }
        write!(f, "stepped {records} from mark {mark}")
    }
}

// The state, and before it the record that led there, which begins at this offset.
#[derive(Clone, Copy)]
struct Found<'a> {
    called: Called<'a>,
    looked: Looked,
    from: usize,
}

impl Display for Found<'_> {
    fn fmt<W: fmt::Write>(&self, f: &mut Formatter<W>) -> fmt::Result {
        let Called {
            log,
            record,
            mark,
            ..
        } = self.called;
        let Looked {
            state,
            steps,
            offset,
            ..
        } = self.looked;
        let steps = Steps { steps, mark };
        let line = LineAt {
            sheet: log,
            offset: self.from,
        };
        let state = AllOf(state);
        writeln!(f, "after record {record} at offset {offset}: {steps}")?;
        write!(f, "the record that led there:\n{line}{state}")
    }
}

impl Called<'_> {
    // Tells the state that was found, if it is that of this log and this start: by lengths alone the log says where its records end, and a
    // start stays in the state.
    fn tell_found(self, looked: Looked, out: &mut [u8], at: usize) -> Told {
        let Called {
            limits,
            log,
            record,
            mark,
            ..
        } = self;
        let Looked { state, offset, .. } = looked;
        let from = stopped_at(log, record.wrapping_sub(1));
        let end = end_of(log, from);
        if end != offset {
            let text = format_args!(
                "different: record {record} ends at offset {end} of the log, and by mark {mark} at offset {offset}{FOREIGN}"
            );
            return Told {
                length: put_text(out, at, text),
                accepted: false,
            };
        }
        if same_limits(state.limits, limits) {
            let called = self;
            return Told {
                length: put_text(
                    out,
                    at,
                    Found {
                        called,
                        looked,
                        from,
                    },
                ),
                accepted: true,
            };
        }
        let start = Start(state.limits);
        let text = format_args!("different: mark {mark} is of a box that was started with {start}");
        Told {
            length: put_text(out, at, text),
            accepted: false,
        }
    }

    // Tells what was found, or why nothing was.
    fn tell(self, looked: Looked, out: &mut [u8]) -> Told {
        let at = put_text(out, 0, Start(self.limits));
        if looked.code != ACCEPTED {
            let text = NotFound {
                code: looked.code,
                called: self,
            };
            return Told {
                length: put_text(out, at, text),
                accepted: false,
            };
        }
        if self.record == 0 {
            let steps = Steps { steps: 0, mark: 0 };
            let state = AllOf(looked.state);
            return Told {
                length: put_text(
                    out,
                    at,
                    format_args!("before the first record: {steps}\n{state}"),
                ),
                accepted: true,
            };
        }
        self.tell_found(looked, out, at)
    }
}

// Tells the state after this record of a log, stepped from a cold start with these limits; or the refusal.
pub fn state_text(limits: Limits, log: &[u8], record: usize, out: &mut [u8]) -> Told {
    let called = Called {
        limits,
        log,
        record,
        mark: 0,
        held: 0,
    };
    called.tell(stepped(limits, log, record), out)
}

// Tells the same from the nearest mark at or before the record; or the refusal.
pub fn marked_state_text(
    limits: Limits,
    log: &[u8],
    marks: &[u8],
    record: usize,
    out: &mut [u8],
) -> Told {
    let called = Called {
        limits,
        log,
        record,
        mark: record / MARK_EVERY,
        held: marks.len() / MARK_SIZE,
    };
    called.tell(look_up(limits, log, marks, record), out)
}
