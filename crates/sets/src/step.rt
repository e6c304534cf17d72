// One step of the engine of sets.
ghost use Rattle.std.specs.Prelude.{◌≡◌, true, [], map, ◌<◌, ◌≤◌};
ghost use Rattle.unit.specs.Steps.{act};
ghost use Rattle.unit.specs.Forms.{listed};
ghost use Rattle.unit.specs.Lasts.{recalled};
ghost use Rattle.wire.specs.Refusals.{number};
ghost use Rattle.sets.specs.Members.{most_members, has_member, member_for};
ghost use Rattle.sets.specs.SixSets.{set_in, size, phase_in, unpacked_six, unpacked, packed_six, tidy_six, set_ready};
ghost use Rattle.sets.specs.Moves.{move_of, sent_in};
ghost use Rattle.sets.specs.SetSteps.{set_refused_at, set_refused, set_done, set_noted, with_member, set_closed, moved, set_recalling};
ghost use Rattle.sets.specs.SetSteps.{set_moved, set_named, set_joined, set_ordered_to, set_ordered, set_received, set_called, set_step};
ghost use Rattle.sets.specs.OnSets.{boxed, set_listed};

use crate::answer::{SetAnswer, no_actions, send};
use crate::members::{MOST_MEMBERS, Member};
use crate::moves::{Move, move_of};
use crate::names::{SESSION_TRIES, SetName};
use crate::six::SixSets;
use crate::state::SetState;
use place::action::{ESTABLISHED, RELEASE, REQUEST};
use place::phase::FIRST_TRY;
use place::place::Direction;
use place::turn::Closing;
use record::event::{Cause, Event, PartnerEvent};
use record::partner::Partner;
use unit::answer::Actions;
use unit::last::Last;
use unit::order::{displaced, in_force, spend};
use unit::state::{MISSION_ENDED, Marks, Train};
use wire::refusal::Refusal;

// No phase is said.
const NO_PHASE: u8 = 0;

// The actions of a move, for its member.
fn sent_in(step: Move, partner: Partner) -> Actions
    ensures { result ≡ listed (map (act partner) (sent_in step)) }
{
    match step {
        Move::Stays | Move::Enters { .. } => no_actions(),
        Move::Leaves => send(no_actions(), partner, RELEASE),
        Move::Sends { number, .. } => send(no_actions(), partner, number),
        Move::SendsBoth { first, second, .. } => {
            send(send(no_actions(), partner, first), partner, second)
        }
    }
}

// The RBC that is the last known after the actions of a move.
fn recalled_in(last: Last, step: Move, partner: Partner) -> Last
    ensures { result ≡ recalled last (map (act partner) (sent_in step)) }
{
    match step {
        Move::Stays | Move::Enters { .. } => last,
        Move::Leaves => last.recall(partner, RELEASE),
        Move::Sends { number, .. } => last.recall(partner, number),
        Move::SendsBoth { first, second, .. } => last
            .recall(partner, first)
            .recall(partner, second),
    }
}

impl SixSets {
    // The member enters a set, after those that stand there.
    fn enter(self, set: SetName, member: Member) -> SixSets
        requires { (tidy_six self ≡ true) × (size (unpacked_six self) < most_members) }
        ensures { result ≡ packed_six (with_member set member (unpacked_six self)) }
    {
        self.with_set(set, self.set(set).with(member))
    }

    // The member of this set that is the partner moves.
    fn moved(self, partner: Partner, name: SetName, step: Move) -> SixSets
        requires { (tidy_six self ≡ true)
            × (size (unpacked_six self) ≤ most_members)
            × (has_member partner (set_in name (unpacked_six self)) ≡ true) }
        ensures { result ≡ packed_six (moved partner name step (unpacked_six self)) }
    {
        let from = self.set(name);
        let member = from.member(partner);
        let rest = self.with_set(name, from.without(partner));
        match step {
            Move::Stays => self,
            Move::Leaves => rest,
            Move::Enters { set, tries }
            | Move::Sends { set, tries, .. }
            | Move::SendsBoth { set, tries, .. } => rest.enter(set, member.tried(tries)),
        }
    }
}

// A state that is sound: what is stepped.
#[derive(Clone, Copy)]
pub(crate) struct ReadyState {
    pub(crate) state: SetState,
    ghost is_ready: { set_ready state ≡ true },
}

impl ReadyState {
    // A refusal that says no phase.
    fn refuse(self, refusal: Refusal) -> SetAnswer
        ensures { result ≡ set_listed (boxed (set_refused (number refusal) (unpacked self.state))) }
    {
        SetAnswer::refused(refusal, NO_PHASE, self.state)
    }

    // A refusal that says the phase of the partner, by the set in which it was found.
    fn refuse_in(self, refusal: Refusal, name: SetName) -> SetAnswer
        ensures { result ≡ set_listed (boxed (set_refused_at (number refusal) (phase_in name) (unpacked self.state))) }
    {
        SetAnswer::refused(refusal, name.phase(), self.state)
    }

    // Another train and other marks.
    fn note(self, train: Train, marks: Marks) -> SetAnswer
        ensures { result ≡ set_listed (boxed (set_done (set_noted (unpacked self.state) train marks) [])) }
    {
        let next = SetState {
            train,
            marks,
            ..self.state
        };
        SetAnswer::done(next, no_actions())
    }

    // Another train, and every member closed.
    fn close_all(self, train: Train) -> SetAnswer
        ensures { result ≡ set_listed (boxed (set_closed Closing.Every (set_noted (unpacked self.state) train self.state.marks))) }
    {
        let next = SetState {
            train,
            sets: self.state.sets.closed(Closing::Every),
            ..self.state
        };
        SetAnswer::done(next, self.state.sets.closing_actions(Closing::Every))
    }

    fn level(self, level: u64, manual: bool) -> SetAnswer
        ensures { result ≡ set_listed (boxed (set_step (unpacked self.state) (Event.Level level manual))) }
    {
        let train = Train {
            level,
            ..self.state.train
        };
        let marks = Marks {
            manual: self.state.marks.manual | manual,
            ..self.state.marks
        };
        self.note(train, marks)
    }

    fn mission(self, mission: u64) -> SetAnswer
        ensures { result ≡ set_listed (boxed (set_step (unpacked self.state) (Event.Mission mission))) }
    {
        let train = Train {
            mission,
            ..self.state.train
        };
        if mission == MISSION_ENDED {
            self.close_all(train)
        } else {
            self.note(train, self.state.marks)
        }
    }

    fn mode(self) -> SetAnswer
        ensures { result ≡ set_listed (boxed (set_step (unpacked self.state) Event.Mode)) }
    {
        let marks = Marks {
            mode: true,
            ..self.state.marks
        };
        self.note(self.state.train, marks)
    }

    // A radio hole is entered outside one only, and left inside.
    fn hole(self, entered: bool) -> SetAnswer
        ensures { result ≡ set_listed (boxed (set_step (unpacked self.state) (Event.Hole entered))) }
    {
        if self.state.marks.inside == entered {
            return self.refuse(Refusal::NotTaken);
        }
        let marks = Marks {
            inside: entered,
            end: !entered,
            ..self.state.marks
        };
        self.note(self.state.train, marks)
    }

    // The partner is called after the closing that its order brings; there is room for it.
    fn join(self, partner: Partner, accepting: bool, cause: Cause) -> SetAnswer
        requires { size (unpacked_six self.state.sets) < most_members }
        ensures { result ≡ set_listed (boxed (set_joined (unpacked self.state) partner accepting cause)) }
    {
        let which = displaced(partner, accepting);
        let closed = self.state.sets.closed(which);
        let member = Member {
            partner,
            tries: FIRST_TRY,
            direction: Direction::Outgoing,
        };
        let next = SetState {
            marks: spend(cause, self.state.marks),
            sets: closed.enter(SetName::Calling, member),
            ..self.state
        };
        let closings = self.state.sets.closing_actions(which);
        SetAnswer::done(next, send(closings, partner, REQUEST))
    }

    // An order to the partner that is meant, its cause in force.
    fn order_to(self, partner: Partner, accepting: bool, cause: Cause) -> SetAnswer
        ensures { result ≡ set_listed (boxed (set_ordered_to (unpacked self.state) partner accepting cause)) }
    {
        if partner.is_reserved() {
            return self.refuse(Refusal::NoneKnown);
        }
        match self.state.sets.whereabouts(partner) {
            Some(name) => self.refuse_in(Refusal::HasPlace, name),
            None => {
                if self.state.sets.size() < MOST_MEMBERS {
                    self.join(partner, accepting, cause)
                } else {
                    self.refuse(Refusal::AllTaken)
                }
            }
        }
    }

    fn order(self, partner: Partner, accepting: bool, cause: Cause) -> SetAnswer
        ensures { result ≡ set_listed (boxed (set_ordered (unpacked self.state) partner accepting cause)) }
    {
        if in_force(cause, self.state.train, self.state.marks) {
            self.order_to(self.state.last.meant(partner), accepting, cause)
        } else {
            self.refuse(Refusal::NotInForce)
        }
    }

    // An RBC that calls is in session; there is room for it.
    fn receive(self, partner: Partner) -> SetAnswer
        requires { size (unpacked_six self.state.sets) < most_members }
        ensures { result ≡ set_listed (boxed (set_received (unpacked self.state) partner)) }
    {
        let member = Member {
            partner,
            tries: SESSION_TRIES,
            direction: Direction::Incoming,
        };
        let next = SetState {
            sets: self.state.sets.enter(SetName::IncomingSessions, member),
            last: self.state.last.recall(partner, ESTABLISHED),
            ..self.state
        };
        SetAnswer::done(next, send(no_actions(), partner, ESTABLISHED))
    }

    fn call(self, partner: Partner) -> SetAnswer
        ensures { result ≡ set_listed (boxed (set_called (unpacked self.state) partner)) }
    {
        if partner.is_rbc() {
            match self.state.sets.whereabouts(partner) {
                Some(name) => self.refuse_in(Refusal::HasPlace, name),
                None => {
                    if self.state.sets.size() < MOST_MEMBERS {
                        self.receive(partner)
                    } else {
                        self.refuse(Refusal::AllTaken)
                    }
                }
            }
        } else {
            self.refuse(Refusal::CallFromRiu)
        }
    }

    // The member of this set that is the partner moves.
    fn carry_out(self, partner: Partner, name: SetName, step: Move) -> SetAnswer
        requires { has_member partner (set_in name (unpacked_six self.state.sets)) ≡ true }
        ensures { result
            ≡ set_listed (boxed (set_recalling (unpacked self.state) (moved partner name step (unpacked_six self.state.sets))
            (map (act partner) (sent_in step)))) }
    {
        let next = SetState {
            sets: self.state.sets.moved(partner, name, step),
            last: recalled_in(self.state.last, step, partner),
            ..self.state
        };
        SetAnswer::done(next, sent_in(step, partner))
    }

    // An event that names a member of this set.
    fn move_in(self, partner: Partner, name: SetName, event: PartnerEvent) -> SetAnswer
        requires { has_member partner (set_in name (unpacked_six self.state.sets)) ≡ true }
        ensures { result
            ≡ set_listed (boxed (set_moved (unpacked self.state) partner name
            (move_of self.state.limits event name (member_for partner (set_in name (unpacked_six self.state.sets)))))) }
    {
        let from = self.state.sets.set(name);
        let step = move_of(self.state.limits, event, name, from.member(partner));
        if step.is_taken() {
            self.carry_out(partner, name, step)
        } else {
            self.refuse_in(Refusal::NotTaken, name)
        }
    }

    fn named(self, partner: Partner, event: PartnerEvent) -> SetAnswer
        ensures { result ≡ set_listed (boxed (set_named (unpacked self.state) partner event)) }
    {
        match self.state.sets.whereabouts(partner) {
            Some(name) => self.move_in(partner, name, event),
            None => self.refuse(Refusal::HasNone),
        }
    }

    // One step: the next state and the actions in their order, or the refusal with the state as given.
    #[tactic(auto, unfolding(crate::specs::SetSteps::set_step))]
    pub(crate) fn step(self, event: Event) -> SetAnswer
        ensures { result ≡ set_listed (boxed (set_step (unpacked self.state) event)) }
    {
        match event {
            Event::Level { level, manual } => self.level(level, manual),
            Event::Mission { mission } => self.mission(mission),
            Event::Mode => self.mode(),
            Event::Hole { entered } => self.hole(entered),
            Event::Order {
                partner,
                accepting,
                cause,
            } => self.order(partner, accepting, cause),
            Event::EndAll => self.close_all(self.state.train),
            Event::Call { partner } => self.call(partner),
            Event::Named { partner, event } => self.named(partner, event),
        }
    }
}
