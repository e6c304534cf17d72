// The engine of sets as its vectors give it: the box's fields without its places, and six sets.
use crate::engine::{Engine, Ran, engine_holds};
use place::limits::Limits;
use place::place::Place;
use sets::members::{Member, Members};
use sets::run::run;
use sets::six::SixSets;
use sets::start::set_start;
use sets::state::SetState;
use tools::text::put;
use unit::state::State;
use vectors::expected::{HEAD_SIZE, TRIES_AT, state_is};
use vectors::given::{Given, state_in};
use vectors::part::Parts;
use wire::byte::byte_at;

// The bytes of a state before its sets: the box's head, then the number of tries and the last known RBC.
const FRONT_SIZE: usize = 13;

// The bytes of a member, of a set (its count and four members) and of a state.
const MEMBER_SIZE: usize = 6;

const SET_SIZE: usize = 1 + 4 * MEMBER_SIZE;

const SETS_SIZE: usize = FRONT_SIZE + 6 * SET_SIZE;

// Where the state stands in what is expected of a step, behind the code, the count and the phase of the partner.
const STEPPED_STATE: usize = 3;

// The member in the six bytes at the front.
fn member_in(s: &[u8]) -> Member {
    Member {
        partner: s.partner(),
        tries: byte_at(s, 4),
        direction: s.direction_at(5),
    }
}

// The set in the bytes at the front, tidy or not.
fn members_in(s: &[u8]) -> Members {
    let items = s.rest(1);
    Members {
        items: [0, MEMBER_SIZE, 2 * MEMBER_SIZE, 3 * MEMBER_SIZE].map(|at| member_in(items.rest(
            at,
        ))),
        count: s.number_at(0),
    }
}

// The six sets in the bytes at the front.
fn six_in(s: &[u8]) -> SixSets {
    SixSets {
        calling: members_in(s),
        contacted: members_in(s.rest(SET_SIZE)),
        incoming: members_in(s.rest(2 * SET_SIZE)),
        outgoing: members_in(s.rest(3 * SET_SIZE)),
        lost: members_in(s.rest(4 * SET_SIZE)),
        terminating: members_in(s.rest(5 * SET_SIZE)),
    }
}

// The bytes before the sets as those of a box with four free places.
fn box_bytes(s: &[u8]) -> [u8; 41] {
    let mut room = [0u8; 41];
    put(&mut room, 0, s.front(HEAD_SIZE));
    let behind = s.rest(HEAD_SIZE);
    put(&mut room, TRIES_AT, behind.front(FRONT_SIZE - HEAD_SIZE));
    room
}

// The bytes of a member.
fn member_bytes(member: Member) -> [u8; 6] {
    let partner = member.partner;
    [
        partner.kind,
        partner.high,
        partner.middle,
        partner.low,
        member.tries,
        member.direction.number(),
    ]
}

// Whether the bytes at the front are those of a set: the count, and all four members, whatever the count.
fn members_are(members: Members, s: &[u8]) -> bool {
    let mut left = s.rest(1);
    for member in members.items.iter() {
        if !left.begins(&member_bytes(*member)) {
            return false;
        }
        left = left.rest(MEMBER_SIZE);
    }
    members.count == s.number_at(0)
}

// Whether the bytes at the front are those of the six sets.
fn six_are(sets: SixSets, s: &[u8]) -> bool {
    members_are(sets.calling, s)
        && members_are(sets.contacted, s.rest(SET_SIZE))
        && members_are(sets.incoming, s.rest(2 * SET_SIZE))
        && members_are(sets.outgoing, s.rest(3 * SET_SIZE))
        && members_are(sets.lost, s.rest(4 * SET_SIZE))
        && members_are(sets.terminating, s.rest(5 * SET_SIZE))
}

// A box with the fields of this state, and four free places.
fn box_of(state: SetState) -> State {
    State {
        limits: state.limits,
        train: state.train,
        marks: state.marks,
        places: [Place::free(); 4],
        last: state.last,
    }
}

impl Engine for SetState {
    const SIZE: usize = SETS_SIZE;

    const STEPPED_SIZE: usize = STEPPED_STATE + SETS_SIZE;

    fn given(s: &[u8]) -> SetState {
        let State {
            limits,
            train,
            marks,
            last,
            ..
        } = state_in(&box_bytes(s));
        SetState {
            limits,
            train,
            marks,
            sets: six_in(s.rest(FRONT_SIZE)),
            last,
        }
    }

    fn is(self, s: &[u8]) -> bool {
        state_is(box_of(self), &box_bytes(s)) && six_are(self.sets, s.rest(FRONT_SIZE))
    }

    fn start(limits: Limits) -> (u8, SetState) {
        let started = set_start(limits);
        (started.code, started.state)
    }

    fn step_is(self, record: &[u8], room: &mut [u8], s: &[u8]) -> bool {
        let stepped = self.on_record(record, room);
        stepped.code == byte_at(s, 0)
            && stepped.count == s.number_at(1)
            && stepped.phase == byte_at(s, 2)
            && stepped.state.is(s.rest(STEPPED_STATE))
    }

    fn run(self, log: &[u8], budget: usize) -> Ran<SetState> {
        let report = run(self, log, budget);
        let tally = report.tally;
        Ran {
            code: report.code,
            stop: report.stop,
            offset: tally.offset,
            read: tally.read,
            refused: tally.refused,
            totals: tally.totals,
            state: tally.state,
        }
    }
}

// Whether the engine of sets answers what the vector says.
pub(crate) fn setting_holds(v: &[u8]) -> bool {
    engine_holds::<SetState>(v)
}
