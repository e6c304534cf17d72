// What each event changes, read from a state; carrying a change out is the step (see `carried` in specs/).
ghost use Rattle.std.specs.Prelude.{◌≡◌, ◌<◌, true, false, [], ◌++◌, map, get_or};
ghost use Rattle.place.specs.Places.{vacant, held_phase};
ghost use Rattle.place.specs.Table.{turn};
ghost use Rattle.wire.specs.Refusals.{number};
ghost use Rattle.unit.specs.States.{place_count, standing};
ghost use Rattle.unit.specs.declared.search.Found.TheVariants.{At};
ghost use Rattle.unit.specs.Steps.{refused_at, refused, done, act, with_train, with_marks, close_places, taken_in};
ghost use Rattle.unit.specs.Searching.{ordered_to};
ghost use Rattle.unit.specs.Steps.{set_at, step};
ghost use Rattle.unit.specs.Searching.{turned};
ghost use Rattle.place.specs.declared.turn.Closing.TheVariants.{Every};
ghost use Rattle.unit.specs.Changes.{given, noted, carried};

use crate::last::Last;
use crate::order::{displaced, in_force, spend};
use crate::search::{Found, Standing};
use crate::state::{MISSION_ENDED, Marks, PLACES, State, Train};
use place::action::{ESTABLISHED, NO_ACTION, REQUEST};
use place::phase::{FIRST_TRY, Phase};
use place::place::{Direction, Place};
use place::turn::Closing;
use record::event::{Cause, Event, PartnerEvent};
use record::partner::Partner;
use wire::join::or;
use wire::refusal::Refusal;

// A step before it is carried out: the refusal, if it is one; the train and the marks after it; which places are closed;
// then the place that is set, if its number is one of the four; the partner and the numbers of the actions that are sent last, 0 for
// none; for a refusal, the place and phase that it says; and the RBC that is then the last known.
#[derive(Clone, Copy)]
pub(crate) struct Change {
    pub refusal: Option<Refusal>,
    pub train: Train,
    pub marks: Marks,
    pub which: Closing,
    pub at: usize,
    pub place: Place,
    pub partner: Partner,
    pub first: u8,
    pub second: u8,
    pub standing: Standing,
    pub last: Last,
}

impl Change {
    // A change that sets no place.
    fn noted(
        refusal: Option<Refusal>,
        train: Train,
        marks: Marks,
        which: Closing,
        standing: Standing,
        last: Last,
    ) -> Change
        ensures { result ≡ noted refusal train marks which standing last }
    {
        Change {
            refusal,
            train,
            marks,
            which,
            at: PLACES,
            place: Place::free(),
            partner: Partner {
                kind: 0,
                high: 0,
                middle: 0,
                low: 0,
            },
            first: NO_ACTION,
            second: NO_ACTION,
            standing,
            last,
        }
    }
}

impl State {
    // No change, the number of the refusal, and where the partner stands.
    fn refuse_with(self, refusal: Refusal, standing: Standing) -> Change
        ensures { carried self result ≡ refused_at (number refusal) standing self }
    {
        let train = self.train;
        let marks = self.marks;
        let last = self.last;
        Change::noted(
            Some(refusal),
            train,
            marks,
            Closing::Nothing,
            standing,
            last,
        )
    }

    // A refusal that says no place.
    fn refuse(self, refusal: Refusal) -> Change
        ensures { carried self result ≡ refused (number refusal) self }
    {
        self.refuse_with(refusal, Standing::nowhere())
    }

    // A refusal that says the place and the phase in which the partner was found.
    fn refuse_at(self, refusal: Refusal, place: usize, phase: Phase) -> Change
        ensures { carried self result ≡ refused_at (number refusal) (standing (At place phase)) self }
    {
        let standing = Standing {
            place,
            phase: phase.number(),
        };
        self.refuse_with(refusal, standing)
    }

    // Another train and other marks.
    fn note(self, train: Train, marks: Marks) -> Change
        ensures { carried self result ≡ done (with_marks (with_train self train) marks) [] }
    {
        let last = self.last;
        Change::noted(
            None,
            train,
            marks,
            Closing::Nothing,
            Standing::nowhere(),
            last,
        )
    }

    // Another train, and every place closed.
    fn close_all(self, train: Train) -> Change
        ensures { carried self result ≡ close_places Every (with_train self train) }
    {
        let marks = self.marks;
        let last = self.last;
        Change::noted(
            None,
            train,
            marks,
            Closing::Every,
            Standing::nowhere(),
            last,
        )
    }

    fn level(self, level: u64, manual: bool) -> Change
        ensures { carried self result ≡ step self (Event.Level level manual) }
    {
        let mut train = self.train;
        let mut marks = self.marks;
        let marked = or(marks.manual, manual);
        train.level = level;
        marks.manual = marked;
        self.note(train, marks)
    }

    fn mode(self) -> Change
        ensures { carried self result ≡ step self Event.Mode }
    {
        let train = self.train;
        let mut marks = self.marks;
        marks.mode = true;
        self.note(train, marks)
    }

    fn enter_hole(self) -> Change
        ensures { carried self result ≡ step self (Event.Hole true) }
    {
        let train = self.train;
        let mut marks = self.marks;
        if marks.inside {
            return self.refuse(Refusal::NotTaken);
        }
        marks.inside = true;
        marks.end = false;
        self.note(train, marks)
    }

    fn leave_hole(self) -> Change
        ensures { carried self result ≡ step self (Event.Hole false) }
    {
        let train = self.train;
        let mut marks = self.marks;
        if marks.inside {
            marks.inside = false;
            marks.end = true;
            return self.note(train, marks);
        }
        self.refuse(Refusal::NotTaken)
    }

    fn mission(self, mission: u64) -> Change
        ensures { carried self result ≡ step self (Event.Mission mission) }
    {
        let mut train = self.train;
        let marks = self.marks;
        train.mission = mission;
        if mission == MISSION_ENDED {
            self.close_all(train)
        } else {
            self.note(train, marks)
        }
    }

    fn end_all(self) -> Change
        ensures { carried self result ≡ step self Event.EndAll }
    {
        let train = self.train;
        self.close_all(train)
    }

    // The partner takes this place after the closings.
    fn take_in(self, marks: Marks, which: Closing, at: usize, partner: Partner) -> Change
        ensures { carried self result ≡ taken_in (close_places which (with_marks self marks)) at partner }
    {
        let train = self.train;
        let last = self.last;
        let phase = Phase::Connecting(FIRST_TRY);
        Change {
            refusal: None,
            train,
            marks,
            which,
            at,
            place: Place::held(Direction::Outgoing, phase, partner),
            partner,
            first: REQUEST,
            second: NO_ACTION,
            standing: Standing::nowhere(),
            last,
        }
    }

    // An order to the partner that is meant, its cause in force.
    fn order_to(self, partner: Partner, accepting: bool, cause: Cause) -> Change
        ensures { carried self result ≡ ordered_to self partner accepting cause }
    {
        let marks = self.marks;
        if partner.is_reserved() {
            return self.refuse(Refusal::NoneKnown);
        }
        match self.seek(partner) {
            Found::At { place, phase } => self.refuse_at(Refusal::HasPlace, place, phase),
            Found::Vacant(at) => {
                self.take_in(
                    spend(cause, marks),
                    displaced(partner, accepting),
                    at,
                    partner,
                )
            }
            Found::Full => self.refuse(Refusal::AllTaken),
        }
    }

    fn order(self, partner: Partner, accepting: bool, cause: Cause) -> Change
        ensures { carried self result ≡ step self (Event.Order partner accepting cause) }
    {
        let train = self.train;
        let marks = self.marks;
        let last = self.last;
        if in_force(cause, train, marks) {
            self.order_to(last.meant(partner), accepting, cause)
        } else {
            self.refuse(Refusal::NotInForce)
        }
    }

    // Another place at this number, and the actions of these numbers for its partner.
    fn set_place(self, at: usize, place: Place, partner: Partner, first: u8, second: u8) -> Change
        ensures { carried self result ≡ set_at self at place (map (act partner) (given first ++ given second)) }
    {
        let train = self.train;
        let marks = self.marks;
        let last = self.last;
        Change {
            refusal: None,
            train,
            marks,
            which: Closing::Nothing,
            at,
            place,
            partner,
            first,
            second,
            standing: Standing::nowhere(),
            last: last.recall(partner, first).recall(partner, second),
        }
    }

    fn call(self, partner: Partner) -> Change
        ensures { carried self result ≡ step self (Event.Call partner) }
    {
        if partner.is_rbc() {
            match self.seek(partner) {
                Found::At { place, phase } => self.refuse_at(Refusal::HasPlace, place, phase),
                Found::Vacant(at) => {
                    let place = Place::held(Direction::Incoming, Phase::Open, partner);
                    self.set_place(at, place, partner, ESTABLISHED, NO_ACTION)
                }
                Found::Full => self.refuse(Refusal::AllTaken),
            }
        } else {
            self.refuse(Refusal::CallFromRiu)
        }
    }

    // What an event that names this partner makes of the place where it was found, in this phase.
    fn turn(self, at: usize, phase: Phase, partner: Partner, event: PartnerEvent) -> Change
        requires { (at < place_count) × (held_phase (get_or self.places at vacant) ≡ phase) }
        ensures { carried self result ≡ turned self at phase partner (turn self.limits phase event) }
    {
        let limits = self.limits;
        let place = self.place_at(at);
        let turned = place.turn(event, limits);
        if turned.taken {
            let next = turned.place;
            self.set_place(at, next, partner, turned.first, turned.second)
        } else {
            self.refuse_at(Refusal::NotTaken, at, phase)
        }
    }

    fn named(self, partner: Partner, event: PartnerEvent) -> Change
        ensures { carried self result ≡ step self (Event.Named partner event) }
    {
        match self.seek(partner) {
            Found::At { place, phase } => self.turn(place, phase, partner, event),
            Found::Vacant(_) => self.refuse(Refusal::HasNone),
            Found::Full => self.refuse(Refusal::HasNone),
        }
    }

    // What an event changes.
    pub(crate) fn change(self, event: Event) -> Change
        ensures { carried self result ≡ step self event }
    {
        match event {
            Event::Level { level, manual } => self.level(level, manual),
            Event::Mission { mission } => self.mission(mission),
            Event::Mode => self.mode(),
            Event::Hole { entered } => {
                if entered {
                    self.enter_hole()
                } else {
                    self.leave_hole()
                }
            }
            Event::Order {
                partner,
                accepting,
                cause,
            } => self.order(partner, accepting, cause),
            Event::EndAll => self.end_all(),
            Event::Call { partner } => self.call(partner),
            Event::Named { partner, event } => self.named(partner, event),
        }
    }
}
