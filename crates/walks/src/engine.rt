// What the box, the shunter and the engine of sets have in common: a cold start, a step on bytes, a run.
ghost use Rattle.std.specs.Prelude.{◌≡◌, ℕ, List, length};
ghost use Rattle.place.specs.declared.limits.Limits.{Limits};
ghost use Rattle.unit.specs.States as states;
ghost use Rattle.unit.specs.OnRecords.{on_record, written};
ghost use Rattle.unit.specs.Forms.{stepped};
ghost use Rattle.unit.specs.Runs as runs;
ghost use Rattle.shunter.specs.Queues.{cold_shunter};
ghost use Rattle.shunter.specs.Shunting.{shunt, sent_buffer, sent_of};
ghost use Rattle.shunter.specs.ShunterRuns.{shunter_run};
ghost use Rattle.walks.specs.declared.engine.Told.{Told};
ghost use Rattle.walks.specs.declared.engine.Counted.{Counted};
ghost use Rattle.sets.specs.SixSets.{set_start};
ghost use Rattle.sets.specs.OnSets.{on_sets, set_buffer, set_stepped};
ghost use Rattle.sets.specs.SetRuns.{set_run};

use place::limits::{FLEET_TRIES, Limits};
use sets::start::set_start;
use sets::state::SetState;
use shunter::start::fit;
use shunter::state::Shunter;
use unit::run::Totals;
use unit::start::cold_start;
use unit::state::State;

// X from 1 to 2 and the tries of the fitted fleets: what the walks start with.
pub(crate) const FLEET: Limits = Limits {
    lowest: 1,
    highest: 2,
    tries: FLEET_TRIES,
};

// What a step on bytes tells: 0 or the number of the refusal, the engine after it, and how many actions were written.
#[derive(Clone, Copy)]
pub struct Told<E> {
    pub code: u8,
    pub engine: E,
    pub count: usize,
}

// What a run counts: 0 or the number of the refusal, the stop, the offset reached, the records read and refused, and the totals.
#[derive(Clone, Copy)]
pub struct Counted {
    pub code: u8,
    pub stop: u8,
    pub offset: usize,
    pub read: u32,
    pub refused: u32,
    pub totals: Totals,
}

// An engine that steps on the records of a log.
pub trait Engine: Copy {
    ghost begins: { Limits → Self };

    ghost tells: { Self → List ℕ → ℕ → Told Self };

    ghost leaves: { Self → List ℕ → List ℕ → List ℕ };

    ghost counts: { Self → List ℕ → ℕ → Counted };

    // The engine as it starts cold.
    fn start(limits: Limits) -> Self
        ensures { result ≡ begins limits };

    // One step on an event record; an accepted one writes its actions to the front of the buffer, a refused one nothing.
    fn step(self, bytes: &[u8], actions: &mut [u8]) -> Told<Self>
        ensures answer { result ≡ tells self bytes.now (length actions.old) }
        ensures buffer { actions.new ≡ leaves self bytes.now actions.old };

    // The run over a log with a budget of records.
    fn run(self, log: &[u8], budget: usize) -> Counted
        ensures { result ≡ counts self log.now budget };
}

impl Engine for State {
    ghost begins = { λ limits. (states.cold_start limits).state };

    ghost tells = { λ s bytes room. let told = stepped (on_record s bytes room) in
        record { code = told.code; engine = told.state; count = told.count } };

    ghost leaves = { λ s bytes buffer. written (on_record s bytes (length buffer)).actions buffer };

    ghost counts = { λ s log budget. let report = runs.run s log budget in
        record {
          code = report.code;
          stop = report.stop;
          offset = report.tally.offset;
          read = report.tally.read;
          refused = report.tally.refused;
          totals = report.tally.totals;
        } };

    fn start(limits: Limits) -> State {
        cold_start(limits).state
    }

    fn step(self, bytes: &[u8], actions: &mut [u8]) -> Told<State> {
        let told = self.on_record(bytes, actions);
        Told {
            code: told.code,
            engine: told.state,
            count: told.count,
        }
    }

    fn run(self, log: &[u8], budget: usize) -> Counted {
        let report = unit::run::run(self, log, budget);
        let tally = report.tally;
        Counted {
            code: report.code,
            stop: report.stop,
            offset: tally.offset,
            read: tally.read,
            refused: tally.refused,
            totals: tally.totals,
        }
    }
}

impl Engine for Shunter {
    ghost begins = { λ limits. (cold_shunter limits).shunter };

    ghost tells = { λ s bytes room. let told = sent_of (shunt s bytes room) in
        record { code = told.code; engine = told.shunter; count = told.count } };

    ghost leaves = { sent_buffer };

    ghost counts = { λ s log budget. let report = shunter_run s log budget in
        record {
          code = report.code;
          stop = report.stop;
          offset = report.tally.offset;
          read = report.tally.read;
          refused = report.tally.refused;
          totals = report.tally.totals;
        } };

    fn start(limits: Limits) -> Shunter {
        fit(limits).shunter
    }

    fn step(self, bytes: &[u8], actions: &mut [u8]) -> Told<Shunter> {
        let told = self.on_record(bytes, actions);
        Told {
            code: told.code,
            engine: told.shunter,
            count: told.count,
        }
    }

    fn run(self, log: &[u8], budget: usize) -> Counted {
        let report = shunter::run::run(self, log, budget);
        let tally = report.tally;
        Counted {
            code: report.code,
            stop: report.stop,
            offset: tally.offset,
            read: tally.read,
            refused: tally.refused,
            totals: tally.totals,
        }
    }
}

impl Engine for SetState {
    ghost begins = { λ limits. (set_start limits).state };

    ghost tells = { λ s bytes room. let told = set_stepped (on_sets s bytes room) in
        record { code = told.code; engine = told.state; count = told.count } };

    ghost leaves = { set_buffer };

    ghost counts = { λ s log budget. let report = set_run s log budget in
        record {
          code = report.code;
          stop = report.stop;
          offset = report.tally.offset;
          read = report.tally.read;
          refused = report.tally.refused;
          totals = report.tally.totals;
        } };

    fn start(limits: Limits) -> SetState {
        set_start(limits).state
    }

    fn step(self, bytes: &[u8], actions: &mut [u8]) -> Told<SetState> {
        let told = self.on_record(bytes, actions);
        Told {
            code: told.code,
            engine: told.state,
            count: told.count,
        }
    }

    fn run(self, log: &[u8], budget: usize) -> Counted {
        let report = sets::run::run(self, log, budget);
        let tally = report.tally;
        Counted {
            code: report.code,
            stop: report.stop,
            offset: tally.offset,
            read: tally.read,
            refused: tally.refused,
            totals: tally.totals,
        }
    }
}
