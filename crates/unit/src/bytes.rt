// One step from bytes to bytes: an event record in, the actions out.
ghost use Rattle.std.specs.Prelude.{◌≡◌, [], ◌∷◌, map, ◌+◌, ◌≤◌, ◌<◌, length};
ghost use Rattle.std.proofs.lemmas.List.Edits.{sets};
ghost use Rattle.wire.specs.Refusals.{number};
ghost use Rattle.unit.specs.Steps.{refused_at, act, closed, closing_actions, step};
ghost use Rattle.unit.specs.OnRecords.{action_room, action_size, bytes_of, written, applied, on_record, on_record_unchecked};
ghost use Rattle.unit.specs.Forms.{most_actions, packed, stepped};
ghost use Rattle.unit.specs.Changes.{given, sending, settled, made, sent_behind, Appended};

use crate::answer::{Action, Answer, Stepped};
use crate::change::Change;
use crate::search::Standing;
use crate::state::{PLACES, State};
use crate::step::closes_any;
use place::action::NO_ACTION;
use place::place::Place;
use place::turn::Closing;
use record::event::Event;
use record::partner::Partner;
use record::read::read;
use wire::refusal::{ACCEPTED, Refusal};

// The bytes of one action, and the least room for a step's.
pub const ACTION_SIZE: usize = 5;

pub const ACTION_ROOM: usize = 20;

// Writes an action's five bytes.
fn put(s: &mut [u8], at: usize, action: Action)
    requires { at + action_size ≤ length s.old }
    ensures { s.new ≡ sets s.old at (bytes_of action) }
{
    let partner = action.partner;
    s[at] = action.number;
    s[at + 1] = partner.kind;
    s[at + 2] = partner.high;
    s[at + 3] = partner.middle;
    s[at + 4] = partner.low;
}

// Writes an action behind so many others; answers how many they are then.
fn put_one(s: &mut [u8], count: usize, partner: Partner, number: u8) -> usize
    requires { (count < most_actions) × (action_room ≤ length s.old) }
    ensures { (result ≡ count + 1) × Appended s.old s.new count (act partner number ∷ []) }
{
    put(s, ACTION_SIZE * count, Action { number, partner });
    count + 1
}

// Writes the action of this number behind so many others; 0 is none.
fn put_number(s: &mut [u8], count: usize, partner: Partner, number: u8) -> usize
    requires { (count + length (given number) ≤ most_actions) × (action_room ≤ length s.old) }
    ensures { (result ≡ count + length (given number))
        × Appended s.old s.new count (map (act partner) (given number)) }
{
    if number == NO_ACTION {
        return count;
    }
    put_one(s, count, partner, number)
}

// Places that are closed, and how many actions were written.
#[derive(Clone, Copy)]
struct Shut {
    places: [Place; 4],
    count: usize,
}

impl Stepped {
    // A refusal: the state as given, no action.
    fn refused(refusal: Refusal, standing: Standing, state: State) -> Stepped
        ensures { result ≡ stepped (refused_at (number refusal) standing state) }
    {
        Stepped {
            code: refusal.number(),
            state,
            count: 0,
            standing,
        }
    }
}

impl State {
    // Applies an event record: refusals 11, 1, 2, 1, 3 and then those of the event, the first that applies; the actions as values.
    pub fn apply(self, bytes: &[u8]) -> Answer
        ensures { result ≡ packed (applied self bytes.now) }
    {
        if self.is_sound() {
            match read(bytes) {
                Ok(event) => self.step(event),
                Err(refusal) => Answer::refused(refusal, self),
            }
        } else {
            Answer::refused(Refusal::NotSound, self)
        }
    }

    // Closes the places that the closing is for, lowest first, and writes the actions as it goes.
    fn write_closings(self, which: Closing, s: &mut [u8]) -> Shut
        requires { action_room ≤ length s.old }
        ensures { (result.places ≡ closed which self.places)
            × (result.count ≡ length (closing_actions which self.places))
            × (s.new ≡ written (closing_actions which self.places) s.old) }
    {
        let mut places = self.places;
        let mut count = 0;
        for i in 0..PLACES {
            let place = places[i];
            let turned = place.close(which);
            count = put_number(s, count, place.partner(), turned.first);
            places[i] = turned.place;
        }
        Shut { places, count }
    }

    // The rest of a change, behind so many actions of closings.
    fn write_sent(self, change: Change, count: usize, s: &mut [u8]) -> Stepped
        requires { (count + length (sending change) ≤ most_actions) × (action_room ≤ length s.old) }
        ensures { (result ≡ sent_behind count (settled self change) (sending change))
            × Appended s.old s.new count (sending change) }
    {
        let partner = change.partner;
        let next = put_number(s, count, partner, change.first);
        let sent = put_number(s, next, partner, change.second);
        Stepped {
            code: ACCEPTED,
            state: self.settle(change),
            count: sent,
            standing: Standing::nowhere(),
        }
    }

    // What an accepted step changes. Closings go their own way: without them the compiled code copies no place.
    fn write_change(self, change: Change, s: &mut [u8]) -> Stepped
        requires { (length (made self change).actions ≤ most_actions) × (action_room ≤ length s.old) }
        ensures { (result ≡ stepped (made self change)) × (s.new ≡ written (made self change).actions s.old) }
    {
        let which = change.which;
        if closes_any(which) {
            let shut = self.write_closings(which, s);
            let places = shut.places;
            let closed = self.with_places(places);
            return closed.write_sent(change, shut.count, s);
        }
        self.write_sent(change, 0, s)
    }

    // One step on an event, its actions written.
    fn write_step(self, event: Event, s: &mut [u8]) -> Stepped
        requires { action_room ≤ length s.old }
        ensures { (result ≡ stepped (step self event)) × (s.new ≡ written (step self event).actions s.old) }
    {
        let change = self.change(event);
        match change.refusal {
            None => self.write_change(change, s),
            Some(refusal) => Stepped::refused(refusal, change.standing, self),
        }
    }

    // One step on an event record without the question whether the state is sound: no door, since only a sound state's answer is the
    // box's. Refusals 10, 1, 2, 1, 3 and then those of the event. For a caller that has asked: a stored image is, when it is read.
    pub fn on_record_unchecked(self, bytes: &[u8], actions: &mut [u8]) -> Stepped
        ensures { (result ≡ stepped (on_record_unchecked self bytes.now (length actions.old)))
            × (actions.new
            ≡ written (on_record_unchecked self bytes.now (length actions.old)).actions actions.old) }
    {
        if actions.len() < ACTION_ROOM {
            return Stepped::refused(Refusal::NoRoom, Standing::nowhere(), self);
        }
        match read(bytes) {
            Ok(event) => self.write_step(event, actions),
            Err(refusal) => Stepped::refused(refusal, Standing::nowhere(), self),
        }
    }

    // One step on an event record: refusals 10, 11, 1, 2, 1, 3 and then those of the event, the first that applies.
    // An accepted step writes its actions to the front of the buffer and no other byte; a refused one writes nothing.
    pub fn on_record(self, bytes: &[u8], actions: &mut [u8]) -> Stepped
        ensures { (result ≡ stepped (on_record self bytes.now (length actions.old)))
            × (actions.new
            ≡ written (on_record self bytes.now (length actions.old)).actions actions.old) }
    {
        if actions.len() < ACTION_ROOM {
            return Stepped::refused(Refusal::NoRoom, Standing::nowhere(), self);
        }
        if self.is_sound() {
            self.on_record_unchecked(bytes, actions)
        } else {
            Stepped::refused(Refusal::NotSound, Standing::nowhere(), self)
        }
    }
}
