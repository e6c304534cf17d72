// The run over a log: its records one after the other, counted.
ghost use Rattle.std.specs.Prelude.{◌≡◌, ◌+◌, ◌*◌, ◌≤◌, true, List, length, set, drop};
ghost use Rattle.record.specs.Takes.{longest_log};
ghost use Rattle.record.specs.Stops.{stop_number, told_front};
ghost use Rattle.place.specs.declared.place.Place.{Place};
ghost use Rattle.unit.specs.States.{place_count, sound};
ghost use Rattle.unit.specs.Changes.{sent_for};
ghost use Rattle.unit.specs.Forms.{most_actions};
ghost use Rattle.unit.specs.Runs.{no_totals, totalled, fresh, ended, go, run};
ghost use Rattle.unit.specs.Counting.{most_total, added, Below, tally_of, front_within, refused_rest, accepted_rest};

use crate::change::Change;
use crate::last::Last;
use crate::state::{Marks, PLACES, State, Train};
use crate::step::{close_places, closes_any};
use place::action::{ESTABLISHED, INCOMPATIBLE, INITIATE, RELEASE, REQUEST, TERMINATE};
use place::limits::Limits;
use place::place::Place;
use record::stop::Stop;
use record::take::{Front, LONGEST_LOG, front_at};
use wire::refusal::{ACCEPTED, Refusal};

// How often each of the six actions was sent.
#[derive(Clone, Copy)]
pub struct Totals {
    pub request: u32,
    pub release: u32,
    pub incompatible: u32,
    pub initiate: u32,
    pub terminate: u32,
    pub established: u32,
}

// A run so far: the state, the offset reached, the records read and refused, and the totals.
#[derive(Clone, Copy)]
pub struct Tally {
    pub state: State,
    pub offset: usize,
    pub read: u32,
    pub refused: u32,
    pub totals: Totals,
}

// What a run answers: 0 or the number of the refusal, the stop, and the run as far as it came.
#[derive(Clone, Copy)]
pub struct Report {
    pub code: u8,
    pub stop: u8,
    pub tally: Tally,
}

impl Totals {
    fn none() -> Totals
        ensures { result ≡ no_totals }
    {
        Totals {
            request: 0,
            release: 0,
            incompatible: 0,
            initiate: 0,
            terminate: 0,
            established: 0,
        }
    }

    // One more action of this number.
    fn add(self, number: u8) -> Totals
        requires { Below (2 * most_total) self }
        ensures { result ≡ added self number }
    {
        let mut next = self;
        match number {
            REQUEST => {
                next.request += 1;
                next
            }
            RELEASE => {
                next.release += 1;
                next
            }
            INCOMPATIBLE => {
                next.incompatible += 1;
                next
            }
            INITIATE => {
                next.initiate += 1;
                next
            }
            TERMINATE => {
                next.terminate += 1;
                next
            }
            ESTABLISHED => {
                next.established += 1;
                next
            }
            _ => next,
        }
    }

    // The actions of these numbers.
    fn add_all(self, numbers: [u8; 4]) -> Totals
        requires { Below most_total self }
        ensures { ((ps : List Place) → length ps ≡ place_count → result ≡ totalled self (sent_for ps numbers))
            × Below (most_total + most_actions) result }
    {
        let mut totals = self;
        for i in 0..PLACES {
            totals = totals.add(numbers[i]);
        }
        totals
    }
}

impl Tally {
    // A run before its first record.
    fn fresh(state: State) -> Tally
        ensures { result ≡ fresh state }
    {
        Tally {
            state,
            offset: 0,
            read: 0,
            refused: 0,
            totals: Totals::none(),
        }
    }
}

// A run so far without its places. They stand apart: an array that is stored into by a changing number is kept in memory, and so is all
// that it lies in.
#[derive(Clone, Copy)]
struct Rest {
    limits: Limits,
    train: Train,
    marks: Marks,
    last: Last,
    offset: usize,
    read: u32,
    refused: u32,
    totals: Totals,
}

// The places with this one at a number; past the last they stay.
fn seated(before: [Place; 4], at: usize, place: Place) -> [Place; 4]
    ensures { result ≡ set before at place }
{
    let mut places = before;
    if at < PLACES {
        places[at] = place;
        return places;
    }
    places
}

impl Rest {
    // A run before its first record.
    fn fresh(state: State) -> Rest
        ensures { tally_of result state.places ≡ fresh state }
    {
        let limits = state.limits;
        let train = state.train;
        let marks = state.marks;
        let last = state.last;
        Rest {
            limits,
            train,
            marks,
            last,
            offset: 0,
            read: 0,
            refused: 0,
            totals: Totals::none(),
        }
    }

    // The state, with these places.
    fn state(self, places: [Place; 4]) -> State
        ensures { result ≡ (tally_of self places).state }
    {
        let limits = self.limits;
        let train = self.train;
        let marks = self.marks;
        let last = self.last;
        State {
            limits,
            train,
            marks,
            places,
            last,
        }
    }

    // What the run answers with these places and this stop.
    fn report(self, stop: Stop, places: [Place; 4]) -> Report
        ensures { result ≡ ended (tally_of self places) (stop_number stop) }
    {
        let totals = self.totals;
        let state = self.state(places);
        Report {
            code: ACCEPTED,
            stop: stop.number(),
            tally: Tally {
                state,
                offset: self.offset,
                read: self.read,
                refused: self.refused,
                totals,
            },
        }
    }

    // The run after a record of this length that was refused.
    fn refuse(self, length: usize) -> Rest
        requires { (self.offset + length ≤ longest_log) × (self.read ≤ self.offset) × (self.refused ≤ self.read) }
        ensures { result ≡ refused_rest self length }
    {
        let mut next = self;
        next.offset = self.offset + length;
        next.read = self.read + 1;
        next.refused = self.refused + 1;
        next
    }

    // The run after a record of this length that made this change, its closings counted in these totals.
    fn accept(self, length: usize, change: Change, totals: Totals) -> Rest
        requires { (self.offset + length ≤ longest_log)
            × (self.read ≤ self.offset)
            × Below (most_total + most_actions) totals }
        ensures { result ≡ accepted_rest self length change totals }
    {
        let limits = self.limits;
        let train = change.train;
        let marks = change.marks;
        let last = change.last;
        Rest {
            limits,
            train,
            marks,
            last,
            offset: self.offset + length,
            read: self.read + 1,
            refused: self.refused,
            totals: totals.add(change.first).add(change.second),
        }
    }
}

impl Rest {
    // What the run meets next: the end of the log, then of the budget, then what stands at the offset reached.
    fn front(self, log: &[u8], budget: usize) -> Front
        ensures { told_front result ≡ front_within self.read budget (drop self.offset log.now) }
    {
        let at = self.offset;
        if at >= log.len() {
            return Front::Stop(Stop::NothingLeft);
        }
        if self.read as usize == budget {
            return Front::Stop(Stop::BudgetUsed);
        }
        front_at(log, at)
    }
}

// The records of a log from a sound state. A change is stored where it stands, so that a place that is set copies no other. Each way goes
// on to the end of the loop: with a `continue` the compiler makes two loops of one.
fn go(state: State, log: &[u8], budget: usize) -> Report
    requires { (length log.now ≤ longest_log) × (sound state ≡ true) }
    ensures { result ≡ go budget (fresh state) log.now }
{
    let mut rest = Rest::fresh(state);
    let mut places = state.places;
    loop {
        match rest.front(log, budget) {
            Front::Stop(stop) => {
                break rest.report(stop, places);
            }
            Front::Next { length, reading } => match reading {
                Err(_) => {
                    rest = rest.refuse(length);
                }
                Ok(event) => {
                    let change = rest.state(places).change(event);
                    let which = change.which;
                    let to = change.at;
                    let place = change.place;
                    let totals = rest.totals;
                    if change.refusal.is_some() {
                        rest = rest.refuse(length);
                    } else if closes_any(which) {
                        let closed = close_places(places, which);
                        let shut = closed.places;
                        let numbers = closed.numbers;
                        rest = rest.accept(length, change, totals.add_all(numbers));
                        places = seated(shut, to, place);
                    } else if to < PLACES {
                        rest = rest.accept(length, change, totals);
                        places[to] = place;
                    } else {
                        rest = rest.accept(length, change, totals);
                    }
                }
            },
        }
    }
}

// Runs over a log with a budget of records: refusal 12 for a log over 1,048,576 bytes, then 11 for a state that is not sound.
pub fn run(state: State, log: &[u8], budget: usize) -> Report
    ensures { result ≡ run state log.now budget }
{
    if log.len() > LONGEST_LOG {
        return Report {
            code: Refusal::LogTooLong.number(),
            stop: 0,
            tally: Tally::fresh(state),
        };
    }
    if state.is_sound() {
        go(state, log, budget)
    } else {
        Report {
            code: Refusal::NotSound.number(),
            stop: 0,
            tally: Tally::fresh(state),
        }
    }
}
