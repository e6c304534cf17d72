// One step of the shunter, over the box's: what goes out, and who waits then.
ghost use Rattle.std.specs.Prelude.{◌≡◌, true, false, ◌&&◌, List, ◌++◌, ◌-◌, ◌≤◌, length, take, drop};
ghost use Rattle.record.specs.declared.partner.Partner.{Partner};
ghost use Rattle.unit.specs.declared.answer.Action.{Action};
ghost use Rattle.unit.specs.Forms.{most_actions, listed, packed};
ghost use Rattle.unit.specs.Standings.{Concern, nobody, order_to, call_of, naming, concern};
ghost use Rattle.unit.specs.Steps.{Outcome};
ghost use Rattle.shunter.specs.Queues.{modem_count, waiting, queued, in_order};
ghost use Rattle.shunter.specs.Shunting.{waits_for, newcomers, first_requests, is_call_of, all_held, up_lost_timeout, stirs_waiting};
ghost use Rattle.shunter.specs.Shunting.{on_concern, applying, shunted};
ghost use Rattle.shunter.specs.Sending.{outward, still_held, first_request, joiner_of, line_after, sent_with, AnsweredOn, Fits, Good};

use crate::answer::{Shunted, nowhere, silence, with_action};
use crate::queue::{MODEMS, NO_PLACE, Queue};
use crate::state::{Shunter, lowest_free, place_at};
use place::action::{RELEASE, REQUEST};
use record::event::{Event, PartnerEvent};
use record::partner::Partner;
use record::read::read;
use unit::answer::{Action, Actions, Answer, MOST_ACTIONS};
use unit::state::State;
use wire::refusal::{ACCEPTED, Refusal};

// A 38 that the core would accept, and no modem free.
pub const MODEM_MISSING: u8 = 17;

// Up, lost or timeout for a place that waits.
pub const PLACE_WAITS: u8 = 18;

// Actions with those of the served behind them, and who goes on waiting.
#[derive(Clone, Copy)]
struct Served {
    actions: Actions,
    queue: Queue,
}

// The place where it is still held; 4 where it is free.
fn still_held(next: State, at: usize) -> usize
    ensures { result ≡ still_held next.places at }
{
    if place_at(next, at).is_free() {
        NO_PLACE
    } else {
        at
    }
}

// The first request of a place.
fn first_request(next: State, at: usize) -> Action
    ensures { result ≡ first_request next.places at }
{
    Action {
        number: REQUEST,
        partner: place_at(next, at).partner(),
    }
}

// Each free modem to the place that waits longest, its request behind the other actions.
fn serve(next: State, out: Actions, line: Queue, free: usize) -> Served
    ensures { (acts : List Action)
        → in_order line ≡ true
        → out ≡ listed acts
        → length (acts ++ first_requests next.places (take free (waiting line))) ≤ most_actions
        → (result.actions ≡ listed (acts ++ first_requests next.places (take free (waiting line))))
        × (result.queue ≡ queued (drop free (waiting line))) }
{
    let Queue { first, second } = line;
    if free == 0 || first == NO_PLACE {
        return Served {
            actions: out,
            queue: line,
        };
    }
    let once = with_action(out, first_request(next, first));
    if second == NO_PLACE {
        return Served {
            actions: once,
            queue: Queue::none(),
        };
    }
    if free == 1 {
        return Served {
            actions: once,
            queue: Queue {
                first: second,
                second: NO_PLACE,
            },
        };
    }
    Served {
        actions: with_action(once, first_request(next, second)),
        queue: Queue::none(),
    }
}

impl Shunter {
    // The first so many of these actions, but the releases of partners that wait.
    fn outward(self, actions: Actions, count: usize) -> Actions
        ensures { result ≡ listed (outward (waits_for self.state.places (waiting self.queue)) (take count actions.items)) }
    {
        let mut out = silence();
        for action in &actions.items[..count.min(MOST_ACTIONS)] {
            if self.waits(action.partner) & (action.number == RELEASE) {
                continue;
            }
            out = with_action(out, *action);
        }
        out
    }

    // Who waits after the core's step, with one more place or none.
    fn line(self, next: State, joiner: usize) -> Queue
        ensures { length (line_after (waiting self.queue) next.places joiner) ≤ modem_count
            → result ≡ queued (line_after (waiting self.queue) next.places joiner) }
    {
        let queue = self.queue;
        let first = still_held(next, queue.first);
        let second = still_held(next, queue.second);
        Queue::none().joined(first).joined(second).joined(joiner)
    }

    // An accepted step, of the first so many of the core's actions.
    fn send(self, next: State, actions: Actions, count: usize, joiner: usize) -> Shunted
        ensures { Fits (sent_with self next (take count actions.items) (line_after (waiting self.queue) next.places joiner))
            (line_after (waiting self.queue) next.places joiner)
            → result ≡ shunted (sent_with self next (take count actions.items)
            (line_after (waiting self.queue) next.places joiner)) }
    {
        let lined = Shunter {
            state: next,
            queue: self.line(next, joiner),
        };
        let free = MODEMS.saturating_sub(lined.modems());
        let served = serve(next, self.outward(actions, count), lined.queue, free);
        Shunted {
            code: ACCEPTED,
            shunter: Shunter {
                state: next,
                queue: served.queue,
            },
            actions: served.actions,
            standing: nowhere(),
        }
    }
}

// Up, lost or timeout.
fn stirring(event: PartnerEvent) -> bool
    ensures { result ≡ up_lost_timeout event }
{
    matches!(
        event,
        PartnerEvent::Up | PartnerEvent::Loss | PartnerEvent::Timeout
    )
}

impl Shunter {
    // The core's refusal, or the accepted step of the first so many of its actions.
    fn answered(self, answer: Answer, count: usize, joiner: usize) -> Shunted
        ensures { (c : Concern) (o : Outcome)
            → answer ≡ packed o
            → stirs_waiting self c ≡ false
            → (is_call_of c && all_held self) ≡ false
            → count ≡ length o.actions - length (newcomers self.state.places c)
            → joiner ≡ joiner_of self.state.places c
            → Good self c o
            → result ≡ shunted (on_concern self c o) }
    {
        if answer.code == ACCEPTED {
            self.send(answer.state, answer.actions, count, joiner)
        } else {
            Shunted::refused(answer.code, answer.standing, self)
        }
    }

    // The core's answer to an order.
    fn ordered(self, answer: Answer) -> Shunted
        ensures { (p : Partner) → AnsweredOn self (order_to p) answer result }
    {
        let own = answer.actions.count.saturating_sub(1);
        self.answered(answer, own, lowest_free(self.state))
    }

    // The core's answer to a call: 17 where it would accept it and no modem is free.
    fn called(self, answer: Answer) -> Shunted
        ensures { (p : Partner) → AnsweredOn self (call_of p) answer result }
    {
        if (answer.code == ACCEPTED) & (MODEMS <= self.modems()) {
            Shunted::refused(MODEM_MISSING, nowhere(), self)
        } else {
            self.answered(answer, answer.actions.count, NO_PLACE)
        }
    }

    // The core's answer to another event that names a partner: 18 for up, lost or timeout of one that waits.
    fn named(self, answer: Answer, partner: Partner, event: PartnerEvent) -> Shunted
        ensures { AnsweredOn self (naming partner event) answer result }
    {
        if self.waits(partner) & stirring(event) {
            Shunted::refused(PLACE_WAITS, nowhere(), self)
        } else {
            self.answered(answer, answer.actions.count, NO_PLACE)
        }
    }

    // The core's answer where nobody is named.
    fn noted(self, answer: Answer) -> Shunted
        ensures { AnsweredOn self nobody answer result }
    {
        self.answered(answer, answer.actions.count, NO_PLACE)
    }

    // The core's answer to an event.
    fn on_event(self, answer: Answer, event: Event) -> Shunted
        ensures { AnsweredOn self (concern self.state.last event) answer result }
    {
        match event {
            Event::Order { .. } => self.ordered(answer),
            Event::Call { .. } => self.called(answer),
            Event::Named { partner, event } => self.named(answer, partner, event),
            Event::Level { .. }
            | Event::Mission { .. }
            | Event::Mode
            | Event::Hole { .. }
            | Event::EndAll => self.noted(answer),
        }
    }

    // Applies an event record: refusals 11, 1, 2, 1, 3, then 18, those of the event, 17, the first that applies; what goes out as values.
    pub fn apply(self, bytes: &[u8]) -> Shunted
        ensures { result ≡ shunted (applying self bytes.now) }
    {
        if !self.rules_hold() {
            return Shunted::refused(Refusal::NotSound.number(), nowhere(), self);
        }
        let answer = self.state.apply(bytes);
        if answer.code == Refusal::NotSound.number() {
            return Shunted::refused(answer.code, nowhere(), self);
        }
        match read(bytes) {
            Ok(event) => self.on_event(answer, event),
            Err(_) => self.noted(answer),
        }
    }
}
