// Writing an image.
ghost use Rattle.std.specs.Prelude.{◌≡◌, ◌+◌, ◌≤◌, ◌<◌, true, [], ◌∷◌, ◌++◌, length, drop};
ghost use Rattle.std.proofs.lemmas.List.Edits.{sets};
ghost use Rattle.unit.specs.States.{sound};
ghost use Rattle.image.specs.Images.{place_bytes, head_bytes, body_bytes, image_a2};
ghost use Rattle.wire.specs.Bytes.{as_bit};
ghost use Rattle.wire.specs.Refusals.{number};
ghost use Rattle.image.specs.Images.{fits_a1, stored, write_a2, imaged_a2, write_a1, imaged_a1};
ghost use Rattle.image.specs.Bodies.{tail_bytes};

use crate::layout::{KIND_A1, KIND_A2, PLACE_SIZE, PLACES_AT, SIZE_A1, SIZE_A2};
use place::limits::FLEET_TRIES;
use place::place::{Holding, Place};
use record::partner::Partner;
use unit::last::Last;
use unit::state::{PLACES, State};
use wire::refusal::{ACCEPTED, Refusal};

// What writing an image answers: 0 or the number of the refusal, the state as given, and the bytes written.
#[derive(Clone, Copy)]
pub struct Stored {
    pub code: u8,
    pub state: State,
    pub count: usize,
}

// A small number's byte.
fn narrow(x: u64) -> u8
    requires { x < 256 }
    ensures { result ≡ x }
{
    x as u8
}

fn mark_byte(mark: bool) -> u8
    ensures { result ≡ as_bit mark }
{
    u8::from(mark)
}

// Writes the kind and the eight bytes before the places.
fn put_head(s: &mut [u8], kind: u8, state: State)
    requires { (9 ≤ length s.old) × (sound state ≡ true) }
    ensures { s.new ≡ sets s.old 0 (kind ∷ head_bytes state) }
{
    let limits = state.limits;
    let train = state.train;
    let marks = state.marks;
    s[0] = kind;
    s[1] = limits.lowest;
    s[2] = limits.highest;
    s[3] = narrow(train.level);
    s[4] = narrow(train.mission);
    s[5] = mark_byte(marks.inside);
    s[6] = mark_byte(marks.mode);
    s[7] = mark_byte(marks.manual);
    s[8] = mark_byte(marks.end);
}

// Writes the phase, direction, tries and partner of a place.
fn put_seven(s: &mut [u8], at: usize, phase: u8, direction: u8, tries: u8, partner: Partner)
    requires { at + 7 ≤ length s.old }
    ensures { s.new
        ≡ sets s.old at
        (phase ∷ direction ∷ tries ∷ partner.kind ∷ partner.high ∷ partner.middle ∷ partner.low ∷ []) }
{
    s[at] = phase;
    s[at + 1] = direction;
    s[at + 2] = tries;
    s[at + 3] = partner.kind;
    s[at + 4] = partner.high;
    s[at + 5] = partner.middle;
    s[at + 6] = partner.low;
}

// Writes the seven bytes of a place.
fn put_place(s: &mut [u8], at: usize, place: Place)
    requires { at + 7 ≤ length s.old }
    ensures { s.new ≡ sets s.old at (place_bytes place) }
{
    let holding = place.holding;
    match holding {
        Holding::Free => put_seven(
            s,
            at,
            0,
            0,
            0,
            Partner {
                kind: 0,
                high: 0,
                middle: 0,
                low: 0,
            },
        ),
        Holding::Held {
            direction,
            phase,
            partner,
        } => {
            put_seven(
                s,
                at,
                phase.number(),
                direction.number(),
                phase.tries(),
                partner,
            )
        }
    }
}

// Writes the kind and the 36 bytes that both kinds have after it.
fn put_body(s: &mut [u8], kind: u8, state: State)
    requires { (37 ≤ length s.old) × (sound state ≡ true) }
    ensures { s.new ≡ (kind ∷ body_bytes state) ++ drop 37 s.old }
{
    put_head(s, kind, state);
    for i in 0..PLACES {
        put_place(s, PLACES_AT + PLACE_SIZE * i, state.places[i]);
    }
}

// Writes the number of tries, and 1 and the last known RBC or four zeros.
fn put_five(s: &mut [u8], tries: u8, flag: u8, high: u8, middle: u8, low: u8)
    requires { 42 ≤ length s.old }
    ensures { s.new ≡ sets s.old 37 (tries ∷ flag ∷ high ∷ middle ∷ low ∷ []) }
{
    s[37] = tries;
    s[38] = flag;
    s[39] = high;
    s[40] = middle;
    s[41] = low;
}

// Writes what A2 has after the 37 bytes of A1.
fn put_tail(s: &mut [u8], state: State)
    requires { 42 ≤ length s.old }
    ensures { s.new ≡ sets s.old 37 (tail_bytes state) }
{
    let limits = state.limits;
    let last = state.last;
    match last {
        Last::Unknown => put_five(s, limits.tries, 0, 0, 0, 0),
        Last::Known { high, middle, low } => put_five(s, limits.tries, 1, high, middle, low),
    }
}

// Writes the image A2 of a sound state to the front of a buffer.
pub(crate) fn put_image(s: &mut [u8], state: State)
    requires { (42 ≤ length s.old) × (sound state ≡ true) }
    ensures { s.new ≡ image_a2 state ++ drop 42 s.old }
{
    put_body(s, KIND_A2, state);
    put_tail(s, state);
}

// What a refused write answers: the state as given, no byte written.
fn refused(refusal: Refusal, state: State) -> Stored
    ensures { result ≡ stored (number refusal) 0 state }
{
    Stored {
        code: refusal.number(),
        state,
        count: 0,
    }
}

// Whether A1 can hold a state: three tries, and no RBC known.
fn fits_a1(state: State) -> bool
    ensures { result ≡ fits_a1 state }
{
    match state.last {
        Last::Unknown => state.limits.tries == FLEET_TRIES,
        Last::Known { .. } => false,
    }
}

// Writes the image A2 of a state to the front of a buffer: refusal 10 where it has under 42 bytes, 11 where the state is not sound.
// A refused write returns the state as given and writes nothing; later bytes stay.
pub fn write_a2(state: State, buffer: &mut [u8]) -> Stored
    ensures { (result ≡ write_a2 state (length buffer.old))
        × (buffer.new ≡ imaged_a2 state buffer.old) }
{
    if buffer.len() < SIZE_A2 {
        return refused(Refusal::NoRoom, state);
    }
    if state.is_sound() {
        put_image(buffer, state);
        Stored {
            code: ACCEPTED,
            state,
            count: SIZE_A2,
        }
    } else {
        refused(Refusal::NotSound, state)
    }
}

// Writes the image A1 of a state to the front of a buffer: refusal 10 where it has under 37 bytes, 11 where the state is not sound,
// 16 where its tries are not three or an RBC is known. A refused write returns the state as given and writes nothing; later bytes
// stay.
pub fn write_a1(state: State, buffer: &mut [u8]) -> Stored
    ensures { (result ≡ write_a1 state (length buffer.old))
        × (buffer.new ≡ imaged_a1 state buffer.old) }
{
    if buffer.len() < SIZE_A1 {
        return refused(Refusal::NoRoom, state);
    }
    if state.is_sound() {
        if fits_a1(state) {
            put_body(buffer, KIND_A1, state);
            Stored {
                code: ACCEPTED,
                state,
                count: SIZE_A1,
            }
        } else {
            refused(Refusal::NotInA1, state)
        }
    } else {
        refused(Refusal::NotSound, state)
    }
}
