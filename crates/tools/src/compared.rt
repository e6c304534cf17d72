// Whether the engine of places and the engine of sets stand and answer alike: what `resheftal sets` holds against each other.
use crate::started::same_limits;
use crate::text::{put_text, write_list};
use place::phase::Phase;
use place::place::{Direction, Holding, Place};
use record::partner::Partner;
use runs::run::MachineReport;
use sets::answer::SetAnswer;
use sets::members::{MOST_MEMBERS, Member, Members};
use sets::six::SixSets;
use sets::state::SetState;
use std::fmt;
use std::fmt::{Display, Formatter};
use unit::answer::{Action, Actions, Answer};
use unit::last::Last;
use unit::run::{Report, Totals};
use unit::state::{Marks, State, Train};

// What differs: the refusal; the phase that a refusal tells; who stands where, and with which direction; the tries of those who stand
// alike; the limits; level or mission; the marks; the last known RBC; how many of each action there are for each partner.
#[derive(Clone, Copy)]
pub struct Differences {
    pub refusal: bool,
    pub phase: bool,
    pub sets: bool,
    pub tries: bool,
    pub limits: bool,
    pub train: bool,
    pub marks: bool,
    pub last: bool,
    pub actions: bool,
}

#[derive(Clone, Copy, PartialEq)]
enum Set {
    Calling,
    Contacted,
    Incoming,
    Outgoing,
    Lost,
    Terminating,
}

// One who stands in a set: the set, the bytes of the partner, the number of its direction, the tries.
#[derive(Clone, Copy, PartialEq)]
struct Entry {
    set: Set,
    partner: [u8; 4],
    direction: u8,
    tries: u8,
}

fn spelt(partner: Partner) -> [u8; 4] {
    [partner.kind, partner.high, partner.middle, partner.low]
}

// The set that means a phase with this direction.
fn set_of(direction: Direction, phase: Phase) -> Set {
    match (phase, direction) {
        (Phase::Connecting(_), _) => Set::Calling,
        (Phase::Contacting(_), _) => Set::Contacted,
        (Phase::Open, Direction::Outgoing) => Set::Outgoing,
        (Phase::Open, Direction::Incoming) => Set::Incoming,
        (Phase::Lost(_), _) => Set::Lost,
        (Phase::Ending(_), _) => Set::Terminating,
    }
}

impl Entry {
    // What a place means, if one holds it.
    fn held(place: &Place) -> Option<Entry> {
        match place.holding {
            Holding::Free => None,
            Holding::Held {
                direction,
                phase,
                partner,
            } => Some(Entry {
                set: set_of(direction, phase),
                partner: spelt(partner),
                direction: direction.number(),
                tries: phase.tries(),
            }),
        }
    }

    // What a member of this set means.
    fn listed(set: Set, member: &Member) -> Entry {
        Entry {
            set,
            partner: spelt(member.partner),
            direction: member.direction.number(),
            tries: member.tries,
        }
    }

    // Whether two are the same, with their tries or but for these.
    fn alike(self, other: Entry, tries: bool) -> bool {
        if tries {
            return self == other;
        }
        self == Entry {
            tries: self.tries,
            ..other
        }
    }
}

fn named(sets: SixSets) -> [(Set, Members); 6] {
    [
        (Set::Calling, sets.calling),
        (Set::Contacted, sets.contacted),
        (Set::Incoming, sets.incoming),
        (Set::Outgoing, sets.outgoing),
        (Set::Lost, sets.lost),
        (Set::Terminating, sets.terminating),
    ]
}

// How many places hold what means this entry.
fn at_places(state: State, entry: Entry, tries: bool) -> usize {
    state
        .places
        .iter()
        .filter_map(|place| Entry::held(place))
        .filter(|held| held.alike(entry, tries))
        .count()
}

// How many members of a set are this entry.
fn in_set(set: Set, members: Members, entry: Entry, tries: bool) -> usize {
    members
        .items
        .iter()
        .take(members.count)
        .filter(|&member| Entry::listed(set, member).alike(entry, tries))
        .count()
}

// How many members of the six sets are this entry.
fn in_sets(sets: SixSets, entry: Entry, tries: bool) -> usize {
    named(sets).iter().fold(0usize, |n, (set, members)| {
        n.wrapping_add(in_set(*set, *members, entry, tries))
    })
}

// How many members a set has; where it says more than four, five, which no row of places has.
fn size(members: Members) -> usize {
    members.count.min(MOST_MEMBERS + 1)
}

// Whether there are as many members as held places.
fn as_many(state: State, sets: SixSets) -> bool {
    let held = state.places.iter().filter(|place| !place.is_free()).count();
    let members = named(sets)
        .iter()
        .fold(0usize, |n, (_, members)| n.wrapping_add(size(*members)));
    held == members
}

// Whether the sets have the members that the places mean, with their tries or but for these.
fn same_members(state: State, sets: SixSets, tries: bool) -> bool {
    let each = state
        .places
        .iter()
        .filter_map(|place| Entry::held(place))
        .all(|entry| at_places(state, entry, tries) == in_sets(sets, entry, tries));
    as_many(state, sets) & each
}

fn same_train(a: Train, b: Train) -> bool {
    (a.level, a.mission) == (b.level, b.mission)
}

fn same_marks(a: Marks, b: Marks) -> bool {
    (a.inside, a.mode, a.manual, a.end) == (b.inside, b.mode, b.manual, b.end)
}

// The bytes of the last known RBC, if one is known.
fn known(last: Last) -> Option<(u8, u8, u8)> {
    match last {
        Last::Unknown => None,
        Last::Known { high, middle, low } => Some((high, middle, low)),
    }
}

// How many of the actions are this one.
fn among(actions: Actions, action: &Action) -> usize {
    actions
        .items
        .iter()
        .take(actions.count)
        .filter(|item| item.number == action.number && item.partner.same(action.partner))
        .count()
}

// Whether there are as many of each action for each partner, in whatever order.
fn same_actions(first: Actions, other: Actions) -> bool {
    let each = first
        .items
        .iter()
        .take(first.count)
        .all(|action| among(first, action) == among(other, action));
    (first.count == other.count) & each
}

// What differs between a state of the engine of places and one of the engine of sets. Tries are told where the members stand alike.
pub fn compare_states(state: State, other: SetState) -> Differences {
    let stands = same_members(state, other.sets, false);
    Differences {
        refusal: false,
        phase: false,
        sets: !stands,
        tries: stands & !same_members(state, other.sets, true),
        limits: !same_limits(state.limits, other.limits),
        train: !same_train(state.train, other.train),
        marks: !same_marks(state.marks, other.marks),
        last: known(state.last) != known(other.last),
        actions: false,
    }
}

// What differs between the two engines' answers to a record; the place that a refusal tells is not compared.
pub fn compare_answers(answer: Answer, other: SetAnswer) -> Differences {
    Differences {
        refusal: answer.code != other.code,
        phase: answer.standing.phase != other.phase,
        actions: !same_actions(answer.actions, other.actions),
        ..compare_states(answer.state, other.state)
    }
}

fn counts(totals: Totals) -> [u32; 6] {
    [
        totals.request,
        totals.release,
        totals.incompatible,
        totals.initiate,
        totals.terminate,
        totals.established,
    ]
}

// Whether two runs answer alike: refusal, stop, offset, records read and refused, totals, and the last states.
pub fn same_runs(report: Report, other: MachineReport<SetState>) -> bool {
    let a = report.tally;
    let b = other.tally;
    let found = compare_states(a.state, b.state);
    let ended = (report.code, report.stop, a.offset) == (other.code, other.stop, b.offset);
    let counted = (a.read, a.refused, counts(a.totals)) == (b.read, b.refused, counts(b.totals));
    ended & counted & !found.is_any()
}

impl Differences {
    // The names of all that may differ, each with whether it does.
    fn named(self) -> [(bool, &'static str); 9] {
        [
            (self.refusal, "refusal"),
            (self.phase, "phase"),
            (self.sets, "sets"),
            (self.tries, "tries"),
            (self.limits, "limits"),
            (self.train, "level or mission"),
            (self.marks, "marks"),
            (self.last, "last known RBC"),
            (self.actions, "actions"),
        ]
    }

    // Whether anything differs.
    pub(crate) fn is_any(self) -> bool {
        self.named().iter().any(|(differs, _)| *differs)
    }
}

impl Display for Differences {
    fn fmt<W: fmt::Write>(&self, f: &mut Formatter<W>) -> fmt::Result {
        let named = self.named();
        let names = named
            .iter()
            .filter(|&(differs, _)| *differs)
            .map(|(_, name)| *name);
        write_list(f, names, "nothing")
    }
}

// What differs, by name.
pub fn put_differences(out: &mut [u8], from: usize, found: Differences) -> usize {
    put_text(out, from, found)
}
