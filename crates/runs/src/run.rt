// The run of a machine over a log: a record is taken and applied, and so on from there; the totals are of what went out.
ghost use Rattle.std.specs.Prelude.{◌≡◌, ◌+◌, ◌*◌, ◌≤◌, length, take};
ghost use Rattle.wire.specs.Refusals.{number};
ghost use Rattle.record.specs.Takes.{longest_log};
ghost use Rattle.record.specs.Stops.{stop_number};
ghost use Rattle.unit.specs.Counting.{most_total, added, Below};
ghost use Rattle.unit.specs.Forms.{most_actions};
ghost use Rattle.unit.specs.Runs.{totalled};
ghost use Rattle.runs.specs.MachineRuns.{machine_fresh, machine_ended, machine_go, machine_refused, machine_run};
ghost use Rattle.runs.specs.Counting.{machine_tallying};

use crate::machine::{Applied, Machine};
use place::action::{ESTABLISHED, INCOMPATIBLE, INITIATE, RELEASE, REQUEST, TERMINATE};
use record::stop::Stop;
use record::take::{Front, LONGEST_LOG, front_at};
use unit::answer::Actions;
use unit::run::Totals;
use wire::refusal::{ACCEPTED, Refusal};

// A run so far: the state of the machine, the offset reached, the records read and refused, and how often each action went out.
#[derive(Clone, Copy)]
pub struct MachineTally<M> {
    pub state: M,
    pub offset: usize,
    pub read: u32,
    pub refused: u32,
    pub totals: Totals,
}

// What a run answers: 0 or the number of the refusal, the stop, and the run as far as it came.
#[derive(Clone, Copy)]
pub struct MachineReport<M> {
    pub code: u8,
    pub stop: u8,
    pub tally: MachineTally<M>,
}

// One more action of this number.
fn add(totals: Totals, number: u8) -> Totals
    requires { Below (2 * most_total) totals }
    ensures { result ≡ added totals number }
{
    let mut next = totals;
    match number {
        REQUEST => next.request += 1,
        RELEASE => next.release += 1,
        INCOMPATIBLE => next.incompatible += 1,
        INITIATE => next.initiate += 1,
        TERMINATE => next.terminate += 1,
        ESTABLISHED => next.established += 1,
        _ => {}
    }
    next
}

// The actions of a step counted.
fn add_all(counted: Totals, actions: Actions) -> Totals
    requires { (Below most_total counted) × (actions.count ≤ most_actions) }
    ensures { result ≡ totalled counted (take actions.count actions.items) }
{
    let mut totals = counted;
    for action in &actions.items[..actions.count] {
        totals = add(totals, action.number);
    }
    totals
}

impl<M: Machine> MachineTally<M> {
    // A run before its first record.
    fn fresh(state: M) -> MachineTally<M>
        ensures { result ≡ machine_fresh state }
    {
        MachineTally {
            state,
            offset: 0,
            read: 0,
            refused: 0,
            totals: Totals {
                request: 0,
                release: 0,
                incompatible: 0,
                initiate: 0,
                terminate: 0,
                established: 0,
            },
        }
    }

    // The run after a record of this length that was answered so.
    fn count(self, length: usize, answer: Applied<M>) -> MachineTally<M>
        requires { (self.offset + length ≤ longest_log)
            × (self.read ≤ self.offset)
            × (self.refused ≤ self.read)
            × (Below most_total self.totals)
            × (answer.actions.count ≤ most_actions) }
        ensures { result ≡ machine_tallying self length answer }
    {
        MachineTally {
            state: answer.state,
            offset: self.offset + length,
            read: self.read + 1,
            refused: self.refused + u32::from(answer.code != ACCEPTED),
            totals: add_all(self.totals, answer.actions),
        }
    }

    // What the run answers where it stops.
    fn report(self, stop: Stop) -> MachineReport<M>
        ensures { result ≡ machine_ended self (stop_number stop) }
    {
        MachineReport {
            code: ACCEPTED,
            stop: stop.number(),
            tally: self,
        }
    }
}

// The records of a log, taken and applied.
fn go<M: Machine>(start: M, log: &[u8], budget: usize) -> MachineReport<M>
    requires { length log.now ≤ longest_log }
    ensures { result ≡ machine_go M.gives budget (machine_fresh start) log.now }
{
    let mut tally = MachineTally::fresh(start);
    loop {
        let at = tally.offset;
        if at >= log.len() {
            break tally.report(Stop::NothingLeft);
        }
        if tally.read as usize == budget {
            break tally.report(Stop::BudgetUsed);
        }
        match front_at(log, at) {
            Front::Stop(stop) => break tally.report(stop),
            Front::Next { length, .. } => {
                tally = tally.count(length, tally.state.answer(&log[at..at + length]));
            }
        }
    }
}

impl<M: Machine> MachineReport<M> {
    // A refused run: its number, the machine as given, and counts of 0.
    fn refused(refusal: Refusal, machine: M) -> MachineReport<M>
        ensures { result ≡ machine_refused (number refusal) machine }
    {
        MachineReport {
            code: refusal.number(),
            stop: 0,
            tally: MachineTally::fresh(machine),
        }
    }
}

// Runs over a log with a budget of records: refusal 12 for a log over 1,048,576 bytes, then 11 for a machine that is not ready.
#[tactic(auto, unfolding(crate::specs::MachineRuns::machine_run))]
pub fn run<M: Machine>(machine: M, log: &[u8], budget: usize) -> MachineReport<M>
    ensures { result ≡ machine_run M.ready M.gives machine log.now budget }
{
    if log.len() > LONGEST_LOG {
        MachineReport::refused(Refusal::LogTooLong, machine)
    } else if machine.is_ready() {
        go(machine, log, budget)
    } else {
        MachineReport::refused(Refusal::NotSound, machine)
    }
}
