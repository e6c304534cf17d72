// What the comparison of the two engines tells of pairs of states made by hand: one pair that is the same, and for each thing compared
// pairs that differ in it and in nothing else.
use crate::by_hand::{
    alone, in_sets, in_sets_after, known, member, nobody, nowhere, places, places_after, say,
    set_of, six,
};
use place::place::Direction;
use sets::members::{Member, Members};
use sets::six::SixSets;
use sets::state::SetState;
use std::io;
use tools::compared::compare_states;
use unit::last::Last;

// Prints what differs where the sets are these.
fn with_sets(rt: &HostRuntime, name: &str, sets: SixSets) -> io::Result<()> {
    let mut other = in_sets();
    other.sets = sets;
    say(rt, name, compare_states(places(), other))
}

fn with_calling(rt: &HostRuntime, name: &str, calling: Members) -> io::Result<()> {
    let mut sets = six();
    sets.calling = calling;
    with_sets(rt, name, sets)
}

fn with_lost(rt: &HostRuntime, name: &str, lost: Member) -> io::Result<()> {
    let mut sets = six();
    sets.lost = alone(lost);
    with_sets(rt, name, sets)
}

// Who stands where.
fn compare_members(rt: &HostRuntime) -> io::Result<()> {
    with_calling(rt, "unequal, one of the sets is empty: ", nowhere())?;
    with_calling(
        rt,
        "unequal, another partner: ",
        alone(member(4, 2, Direction::Outgoing)),
    )?;
    with_calling(
        rt,
        "unequal, a member more: ",
        set_of(
            member(1, 2, Direction::Outgoing),
            member(4, 1, Direction::Outgoing),
            2,
        ),
    )?;
    with_calling(
        rt,
        "unequal, a member twice: ",
        set_of(
            member(1, 2, Direction::Outgoing),
            member(1, 2, Direction::Outgoing),
            2,
        ),
    )?;
    with_calling(
        rt,
        "unequal, a count over four: ",
        set_of(member(1, 2, Direction::Outgoing), nobody(), 5),
    )?;
    with_lost(
        rt,
        "unequal, another direction: ",
        member(2, 1, Direction::Outgoing),
    )?;
    with_lost(
        rt,
        "unequal, a member lost in place of another: ",
        member(1, 1, Direction::Incoming),
    )?;
    let mut twice = six();
    twice.calling = set_of(
        member(1, 2, Direction::Outgoing),
        member(1, 2, Direction::Outgoing),
        2,
    );
    twice.lost = nowhere();
    with_sets(rt, "unequal, a member twice and another missing: ", twice)
}

// In which set, and with which tries.
fn compare_sets(rt: &HostRuntime) -> io::Result<()> {
    let sets = six();
    let calling = sets.calling;
    let incoming = sets.incoming;
    let lost = sets.lost;
    let mut contacted = six();
    contacted.contacted = calling;
    contacted.calling = nowhere();
    with_sets(rt, "unequal, contacted for calling: ", contacted)?;
    let mut outgoing = six();
    outgoing.outgoing = incoming;
    outgoing.incoming = nowhere();
    with_sets(rt, "unequal, outgoing for incoming: ", outgoing)?;
    let mut terminating = six();
    terminating.terminating = lost;
    terminating.lost = nowhere();
    with_sets(rt, "unequal, terminating for lost: ", terminating)
}

fn compare_tries(rt: &HostRuntime) -> io::Result<()> {
    with_calling(
        rt,
        "unequal, other tries: ",
        alone(member(1, 3, Direction::Outgoing)),
    )?;
    with_lost(
        rt,
        "unequal, other tries of a lost one: ",
        member(2, 2, Direction::Incoming),
    )
}

// Prints what differs with another state of the engine of sets.
fn with_other(rt: &HostRuntime, name: &str, other: SetState) -> io::Result<()> {
    say(rt, name, compare_states(places(), other))
}

fn compare_limits(rt: &HostRuntime) -> io::Result<()> {
    let mut lowest = in_sets();
    lowest.limits.lowest = 0;
    with_other(rt, "unequal, another lowest X: ", lowest)?;
    let mut highest = in_sets();
    highest.limits.highest = 3;
    with_other(rt, "unequal, another highest X: ", highest)?;
    let mut tries = in_sets();
    tries.limits.tries = 4;
    with_other(rt, "unequal, another number of tries: ", tries)
}

fn compare_train(rt: &HostRuntime) -> io::Result<()> {
    let mut level = in_sets();
    level.train.level = 3;
    with_other(rt, "unequal, another level: ", level)?;
    let mut mission = in_sets();
    mission.train.mission = 2;
    with_other(rt, "unequal, another mission: ", mission)
}

fn compare_marks(rt: &HostRuntime) -> io::Result<()> {
    let mut inside = in_sets();
    inside.marks.inside = true;
    with_other(rt, "unequal, the mark inside: ", inside)?;
    let mut mode = in_sets();
    mode.marks.mode = false;
    with_other(rt, "unequal, the mark mode change: ", mode)?;
    let mut manual = in_sets();
    manual.marks.manual = true;
    with_other(rt, "unequal, the mark manual level: ", manual)?;
    let mut end = in_sets();
    end.marks.end = false;
    with_other(rt, "unequal, the mark hole end: ", end)
}

// The last known RBC: none, another, and number 0 beside none.
fn compare_last(rt: &HostRuntime) -> io::Result<()> {
    with_other(
        rt,
        "unequal, no last known RBC: ",
        in_sets_after(Last::Unknown),
    )?;
    with_other(
        rt,
        "unequal, another last known RBC: ",
        in_sets_after(known(0)),
    )?;
    say(
        rt,
        "unequal, last known RBC 0 for none: ",
        compare_states(places_after(Last::Unknown), in_sets_after(known(0))),
    )
}

// Prints what is told of each pair of states.
pub(crate) fn compare_pairs(rt: &HostRuntime) -> io::Result<()> {
    with_other(rt, "equal, the same: ", in_sets())?;
    compare_members(rt)?;
    compare_sets(rt)?;
    compare_tries(rt)?;
    compare_limits(rt)?;
    compare_train(rt)?;
    compare_marks(rt)?;
    compare_last(rt)
}
