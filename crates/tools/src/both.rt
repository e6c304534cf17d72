// What `resheftal sets` prints, a piece at a time: what both engines are started with; a line a record, with the answer of the engine of
// sets and the sets after it; the stop, and how often each action went out. Wherever the engine of places differs, a line says in what.
use crate::compared::{Differences, compare_answers, compare_states, same_runs};
use crate::log::StopLine;
use crate::pieces::{Out, Reached, Record, Sum, Tale, code_of, next_piece, phase_name};
use crate::started::Start;
use crate::state::direction_name;
use crate::text::{Count, put_text, write_list};
use crate::words::{Name, RefusalLine, reason};
use place::limits::Limits;
use record::event::Event;
use record::take::LONGEST_LOG;
use sets::answer::SetAnswer;
use sets::members::{Member, Members};
use sets::six::SixSets;
use sets::start::{SetStarted, set_start};
use sets::state::SetState;
use std::fmt;
use std::fmt::{Display, Formatter};
use unit::start::{Started, cold_start};
use unit::state::State;
use wire::refusal::{ACCEPTED, Refusal};

// How far a log is told: how long the last piece is, whether another follows, and whether the log is taken and the engines do not differ;
// the states of both at the start and after the records that are told, at how many of them the engines differ, and the first of these.
#[derive(Clone, Copy)]
pub struct Comparing {
    pub length: usize,
    pub more: bool,
    pub accepted: bool,
    start: State,
    set_start: SetState,
    state: State,
    set_state: SetState,
    reached: Reached,
    differing: usize,
    first: Option<usize>,
}

// A member of a set that tells its direction: its tries, and its direction.
#[derive(Clone, Copy)]
struct Parted(Member);

impl Display for Parted {
    fn fmt<W: fmt::Write>(&self, f: &mut Formatter<W>) -> fmt::Result {
        let Member {
            partner,
            tries,
            direction,
        } = self.0;
        let name = Name(partner);
        let direction = direction_name(direction);
        write!(f, "{name} (try {tries}, {direction})")
    }
}

// A member of another set: its tries, if it has used any.
#[derive(Clone, Copy)]
struct Joined(Member);

impl Display for Joined {
    fn fmt<W: fmt::Write>(&self, f: &mut Formatter<W>) -> fmt::Result {
        let Member { partner, tries, .. } = self.0;
        let name = Name(partner);
        if tries == 0 {
            return write!(f, "{name}");
        }
        write!(f, "{name} (try {tries})")
    }
}

// The members of a set behind its name, unless it is empty.
fn write_set<W: fmt::Write, M: Display + Drop, F: Fn(Member) -> M>(
    f: &mut Formatter<W>,
    name: &str,
    members: Members,
    told: F,
) -> fmt::Result
    requires { F.IsAlwaysCallable told }
{
    if members.count == 0 {
        return Ok(());
    }
    write!(f, "; {name}: ")?;
    write_list(
        f,
        members
            .items
            .iter()
            .take(members.count)
            .map(|member| told(*member)),
        "",
    )
}

// The sets that are not empty.
#[derive(Clone, Copy)]
struct SixLists(SixSets);

impl Display for SixLists {
    fn fmt<W: fmt::Write>(&self, f: &mut Formatter<W>) -> fmt::Result {
        let sets = self.0;
        write_set(f, "calling", sets.calling, Joined)?;
        write_set(f, "contacted", sets.contacted, Joined)?;
        write_set(f, "incoming", sets.incoming, Joined)?;
        write_set(f, "outgoing", sets.outgoing, Joined)?;
        write_set(f, "lost", sets.lost, Parted)?;
        write_set(f, "terminating", sets.terminating, Parted)?;
        if is_empty(sets) {
            return write!(f, "; all sets empty");
        }
        Ok(())
    }
}

fn is_empty(sets: SixSets) -> bool {
    [
        sets.calling,
        sets.contacted,
        sets.incoming,
        sets.outgoing,
        sets.lost,
        sets.terminating,
    ]
    .iter()
    .all(|members| members.count == 0)
}

// The answer of the engine of sets, and the phase of the partner, if that is said.
#[derive(Clone, Copy)]
struct Answered {
    code: u8,
    phase: u8,
}

impl Display for Answered {
    fn fmt<W: fmt::Write>(&self, f: &mut Formatter<W>) -> fmt::Result {
        let Answered { code, phase } = *self;
        if code == ACCEPTED {
            return write!(f, "accepted");
        }
        write!(f, "refused with {}: {}", code, reason(code))?;
        if phase == 0 {
            return Ok(());
        }
        write!(f, " ({})", phase_name(phase))
    }
}

// What the engine of sets answered, what went out, and how the sets stand then.
#[derive(Clone, Copy)]
struct Step(SetAnswer);

impl Display for Step {
    fn fmt<W: fmt::Write>(&self, f: &mut Formatter<W>) -> fmt::Result {
        let SetAnswer {
            code,
            state,
            actions,
            phase,
        } = self.0;
        let answered = Answered { code, phase };
        let out = Out(actions);
        let sets = SixLists(state.sets);
        writeln!(f, " - {answered}; out: {out}{sets}")
    }
}

// A line that says in what the engines differ, where they do.
#[derive(Clone, Copy)]
struct Differing(Differences);

impl Display for Differing {
    fn fmt<W: fmt::Write>(&self, f: &mut Formatter<W>) -> fmt::Result {
        let found = self.0;
        if found.is_any() {
            return writeln!(f, "  THE ENGINES DIFFER: {found}");
        }
        Ok(())
    }
}

impl Comparing {
    // Before the first record, with a first piece of this length.
    fn begun(
        state: State,
        set_state: SetState,
        length: usize,
        taken: bool,
        same: bool,
    ) -> Comparing {
        Comparing {
            length,
            more: taken,
            accepted: taken & same,
            start: state,
            set_start: set_state,
            state,
            set_state,
            reached: Reached::default(),
            differing: 0,
            first: None,
        }
    }

    // With what was found at the record told last.
    fn noted(self, found: Differences) -> Comparing {
        if found.is_any() {
            return Comparing {
                accepted: false,
                differing: self.differing.wrapping_add(1),
                first: self.first.or(Some(self.reached.read)),
                ..self
            };
        }
        self
    }

    // What came of the comparison: that all was the same, or at how many records the engines differ, and the first of these.
    fn put_compared(self, out: &mut [u8], at: usize, same: bool) -> usize {
        if same {
            let text =
                "both engines gave the same: refusals, phases, sets, tries, other fields, actions\n";
            return put_text(out, at, text);
        }
        let Some(first) = self.first else {
            return at;
        };
        let records = Count(self.differing, "record", "records");
        let text = format_args!("THE ENGINES DIFFER at {records}, first at record {first}\n");
        put_text(out, at, text)
    }
}

impl Tale for Comparing {
    fn reached(self) -> Reached {
        self.reached
    }

    fn with_record(
        self,
        bytes: &[u8],
        reading: Result<Event, Refusal>,
        out: &mut [u8],
    ) -> Comparing {
        let reached = self.reached.after(bytes.len());
        let answer = self.state.apply(bytes);
        let set_answer = self.set_state.apply(bytes);
        let found = compare_answers(answer, set_answer);
        let record = Record {
            number: reached.read,
            offset: self.reached.end,
            reading,
            bytes,
        };
        let step = Step(set_answer);
        let differing = Differing(found);
        let next = Comparing {
            length: put_text(out, 0, format_args!("{record}{step}{differing}")),
            more: true,
            state: answer.state,
            set_state: set_answer.state,
            reached,
            ..self
        };
        next.noted(found)
    }

    fn with_sum(self, log: &[u8], out: &mut [u8]) -> Comparing {
        let report = sets::run::run(self.set_start, log, LONGEST_LOG);
        let same = same_runs(unit::run::run(self.start, log, LONGEST_LOG), report);
        let tally = report.tally;
        let sum = Sum {
            stop: StopLine {
                stop: report.stop,
                log,
                offset: tally.offset,
            },
            read: tally.read,
            refused: tally.refused,
            totals: tally.totals,
        };
        let runs = if same { "" } else { "THE RUNS DIFFER\n" };
        let at = put_text(out, 0, format_args!("{sum}{runs}"));
        let accepted = same & self.accepted;
        Comparing {
            length: self.put_compared(out, at, accepted),
            more: false,
            accepted,
            ..self
        }
    }
}

// What differs between the starts of both engines.
fn compare_starts(started: Started, other: SetStarted) -> Differences {
    Differences {
        refusal: started.code != other.code,
        ..compare_states(started.state, other.state)
    }
}

// Tells what the engines are started with for this log, in what their starts differ, and why these or the log are refused, where they are:
// the first piece. The limits of the engine of sets are the same, except in trials that show that differences are told.
pub fn both_text(limits: Limits, of_sets: Limits, log: &[u8], out: &mut [u8]) -> Comparing {
    let started = cold_start(limits);
    let other = set_start(of_sets);
    let found = compare_starts(started, other);
    let report = sets::run::run(other.state, log, 0);
    let code = code_of(other.code, report.code);
    let start = Start(limits);
    let differing = Differing(found);
    let at = put_text(out, 0, format_args!("{start}{differing}"));
    let same = !found.is_any();
    if code == ACCEPTED {
        return Comparing::begun(started.state, other.state, at, true, same);
    }
    let length = put_text(out, at, RefusalLine(code, "the log"));
    Comparing::begun(started.state, other.state, length, false, same)
}

// Tells the next piece of the same log: the line of the record that follows, or the stop and the totals, which are the last.
pub fn both_next_text(comparing: Comparing, log: &[u8], out: &mut [u8]) -> Comparing {
    next_piece(comparing, log, out)
}
