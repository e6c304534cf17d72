// What the comparison of the two engines tells of pairs of answers and of runs made by hand.
use crate::by_hand::{in_sets, places, rbc, say};
use place::action::{REQUEST, TERMINATE};
use runs::run::{MachineReport, MachineTally};
use sets::answer::SetAnswer;
use sets::state::SetState;
use std::io;
use tools::compared::{compare_answers, same_runs};
use unit::answer::{Action, Actions, Answer};
use unit::run::{Report, Tally, Totals};
use unit::search::Standing;
use wire::refusal::{ACCEPTED, Refusal};

fn action(number: u8, partner: u8) -> Action {
    Action {
        number,
        partner: rbc(partner),
    }
}

fn three(first: Action, second: Action, third: Action, count: usize) -> Actions {
    Actions {
        items: [first, second, third, action(0, 0)],
        count,
    }
}

// What the engine of places is held to have answered.
fn answer() -> Answer {
    Answer {
        code: ACCEPTED,
        state: places(),
        actions: three(
            action(TERMINATE, 1),
            action(TERMINATE, 1),
            action(REQUEST, 2),
            3,
        ),
        standing: Standing { place: 1, phase: 0 },
    }
}

// The answer of the engine of sets with this refusal, this phase and these actions.
fn answered(code: u8, phase: u8, actions: Actions) -> SetAnswer {
    SetAnswer {
        code,
        state: in_sets(),
        actions,
        phase,
    }
}

// Prints what differs with these actions.
fn with_actions(rt: &HostRuntime, name: &str, actions: Actions) -> io::Result<()> {
    let other = answered(ACCEPTED, 0, actions);
    say(rt, name, compare_answers(answer(), other))
}

fn compare_actions(rt: &HostRuntime) -> io::Result<()> {
    let ends = action(TERMINATE, 1);
    let calls = action(REQUEST, 2);
    with_actions(
        rt,
        "equal, actions in another order: ",
        three(calls, ends, ends, 3),
    )?;
    with_actions(rt, "unequal, an action less: ", three(ends, ends, calls, 2))?;
    with_actions(
        rt,
        "unequal, an action for another partner: ",
        three(ends, ends, action(REQUEST, 1), 3),
    )?;
    with_actions(
        rt,
        "unequal, another action: ",
        three(ends, ends, action(TERMINATE, 2), 3),
    )?;
    with_actions(
        rt,
        "unequal, twice the other action: ",
        three(ends, calls, calls, 3),
    )
}

fn compare_codes(rt: &HostRuntime) -> io::Result<()> {
    let box_answer = answer();
    let actions = box_answer.actions;
    say(
        rt,
        "unequal, another refusal: ",
        compare_answers(box_answer, answered(Refusal::NotTaken.number(), 0, actions)),
    )?;
    say(
        rt,
        "unequal, another phase: ",
        compare_answers(box_answer, answered(ACCEPTED, 3, actions)),
    )
}

fn totals() -> Totals {
    Totals {
        request: 1,
        release: 1,
        incompatible: 1,
        initiate: 1,
        terminate: 1,
        established: 1,
    }
}

// What the run of the engine of places is held to have answered.
fn report() -> Report {
    Report {
        code: ACCEPTED,
        stop: 0,
        tally: Tally {
            state: places(),
            offset: 9,
            read: 3,
            refused: 2,
            totals: totals(),
        },
    }
}

// The same of the engine of sets.
fn set_report() -> MachineReport<SetState> {
    MachineReport {
        code: ACCEPTED,
        stop: 0,
        tally: MachineTally {
            state: in_sets(),
            offset: 9,
            read: 3,
            refused: 2,
            totals: totals(),
        },
    }
}

// Prints whether a run is the same as that of the engine of places.
fn with_run(rt: &HostRuntime, name: &str, other: MachineReport<SetState>) -> io::Result<()> {
    let told = if same_runs(report(), other) {
        "the same"
    } else {
        "the runs differ"
    };
    println!(rt; "{name}{told}")
}

fn compare_ends(rt: &HostRuntime) -> io::Result<()> {
    with_run(rt, "equal, the same runs: ", set_report())?;
    let mut code = set_report();
    code.code = Refusal::NotTaken.number();
    with_run(rt, "unequal, another refusal of the run: ", code)?;
    let mut stop = set_report();
    stop.stop = 1;
    with_run(rt, "unequal, another stop: ", stop)?;
    let mut offset = set_report();
    offset.tally.offset = 10;
    with_run(rt, "unequal, another offset: ", offset)?;
    let mut read = set_report();
    read.tally.read = 4;
    with_run(rt, "unequal, another number of records: ", read)?;
    let mut refused = set_report();
    refused.tally.refused = 1;
    with_run(rt, "unequal, another number of refusals: ", refused)?;
    let mut state = set_report();
    state.tally.state.train.level = 3;
    with_run(rt, "unequal, another last state: ", state)
}

fn compare_totals(rt: &HostRuntime) -> io::Result<()> {
    let mut request = set_report();
    request.tally.totals.request = 2;
    with_run(rt, "unequal, another total of 21: ", request)?;
    let mut release = set_report();
    release.tally.totals.release = 2;
    with_run(rt, "unequal, another total of 22: ", release)?;
    let mut incompatible = set_report();
    incompatible.tally.totals.incompatible = 2;
    with_run(rt, "unequal, another total of 154: ", incompatible)?;
    let mut initiate = set_report();
    initiate.tally.totals.initiate = 2;
    with_run(rt, "unequal, another total of 155: ", initiate)?;
    let mut terminate = set_report();
    terminate.tally.totals.terminate = 2;
    with_run(rt, "unequal, another total of 156: ", terminate)?;
    let mut established = set_report();
    established.tally.totals.established = 2;
    with_run(rt, "unequal, another total of 159: ", established)
}

// Prints what is told of each pair of answers and of runs.
pub(crate) fn compare_all_answers(rt: &HostRuntime) -> io::Result<()> {
    compare_actions(rt)?;
    compare_codes(rt)?;
    compare_ends(rt)?;
    compare_totals(rt)
}
