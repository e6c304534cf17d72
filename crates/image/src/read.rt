// Reading an image: the state that its bytes stand for, where it is sound and they are the bytes that it writes.
ghost use Rattle.std.specs.Prelude.{◌≡◌, ◌+◌, ◌*◌, ◌≤◌, ◌<◌, [], ◌∷◌, ◌++◌};
ghost use Rattle.std.specs.Prelude.{eqb, length, take, drop, replicate};
ghost use Rattle.wire.specs.Bytes.{flag, as_bit};
ghost use Rattle.wire.specs.Refusals.{number};
ghost use Rattle.place.specs.Places.{phase_number, tries, direction_number, seat};
ghost use Rattle.unit.specs.States.{place_count};
ghost use Rattle.image.specs.Images.{place_size, place_bytes, head_bytes, last_bytes, whole_bytes, phase_of, direction_of, place_in};
ghost use Rattle.image.specs.Images.{places_in, head_size, last_in, state_in, same_bytes, read_refused, tail_of_a1, read_a2, read_image};
ghost use Rattle.image.specs.Bodies.{places_bytes, last_from, read_body};

use crate::layout::{HEAD_SIZE, KIND_A1, KIND_A2, PLACE_SIZE, SIZE_A1, SIZE_A2};
use place::limits::{FLEET_TRIES, Limits};
use place::phase::Phase;
use place::place::{Direction, Place};
use record::partner::Partner;
use unit::last::Last;
use unit::start::{Started, cold_start};
use unit::state::{Marks, PLACES, State, Train};
use wire::byte::byte_at;
use wire::join::{and, or};
use wire::refusal::{ACCEPTED, Refusal};

// The number of the phase Open, and the highest phase and direction.
const OPEN: u8 = 3;

const HIGHEST_PHASE: u8 = 5;

const HIGHEST_DIRECTION: u8 = 1;

// The highest byte of a mark.
pub(crate) const HIGHEST_MARK: u8 = 1;

fn phase_of(number: u8, tries: u8) -> Phase
    ensures { result ≡ phase_of number tries }
{
    match number {
        1 => Phase::Connecting(tries),
        2 => Phase::Contacting(tries),
        3 => Phase::Open,
        4 => Phase::Lost(tries),
        _ => Phase::Ending(tries),
    }
}

fn direction_of(number: u8) -> Direction
    ensures { result ≡ direction_of number }
{
    if number == 0 {
        Direction::Outgoing
    } else {
        Direction::Incoming
    }
}

// The place that a phase, a direction, tries and a partner stand for.
pub(crate) fn held_of(phase: u8, direction: u8, used: u8, partner: Partner) -> Place
    ensures { result ≡ seat (direction_of direction) (phase_of phase used) partner }
{
    Place::held(direction_of(direction), phase_of(phase, used), partner)
}

// The place that the seven bytes from here on stand for, if any does.
fn place_at(s: &[u8], at: usize) -> Place
    requires { at < 64 }
    ensures { result ≡ place_in (drop at s.now) }
{
    let phase = byte_at(s, at);
    if phase == 0 {
        return Place::free();
    }
    let direction = direction_of(byte_at(s, at + 1));
    let tries = byte_at(s, at + 2);
    let partner = Partner {
        kind: byte_at(s, at + 3),
        high: byte_at(s, at + 4),
        middle: byte_at(s, at + 5),
        low: byte_at(s, at + 6),
    };
    Place::held(direction, phase_of(phase, tries), partner)
}

pub(crate) fn limits_in(s: &[u8]) -> Limits
    ensures { result ≡ (state_in s.now).limits }
{
    Limits {
        lowest: byte_at(s, 0),
        highest: byte_at(s, 1),
        tries: byte_at(s, 36),
    }
}

fn train_in(s: &[u8]) -> Train
    ensures { result ≡ (state_in s.now).train }
{
    Train {
        level: u64::from(byte_at(s, 2)),
        mission: u64::from(byte_at(s, 3)),
    }
}

fn marks_in(s: &[u8]) -> Marks
    ensures { result ≡ (state_in s.now).marks }
{
    Marks {
        inside: byte_at(s, 4) == 1,
        mode: byte_at(s, 5) == 1,
        manual: byte_at(s, 6) == 1,
        end: byte_at(s, 7) == 1,
    }
}

fn last_in(s: &[u8]) -> Last
    ensures { result ≡ (state_in s.now).last }
{
    let flag = byte_at(s, 37);
    if flag == 0 {
        return Last::Unknown;
    }
    Last::Known {
        high: byte_at(s, 38),
        middle: byte_at(s, 39),
        low: byte_at(s, 40),
    }
}

// The state that the body of an image A2, its bytes after the kind, stands for, if it stands for any: nothing is tested.
fn state_in(body: &[u8]) -> State
    ensures { result ≡ state_in body.now }
{
    State {
        limits: limits_in(body),
        train: train_in(body),
        marks: marks_in(body),
        places: [
            place_at(body, 8),
            place_at(body, 15),
            place_at(body, 22),
            place_at(body, 29),
        ],
        last: last_in(body),
    }
}

// Whether two slices hold the same bytes.
pub fn same(a: &[u8], b: &[u8]) -> bool
    ensures { result ≡ same_bytes a.now b.now }
{
    a == b
}

fn refused(refusal: Refusal) -> Started
    ensures { result ≡ read_refused (number refusal) }
{
    let start = cold_start(Limits {
        lowest: 0,
        highest: 0,
        tries: FLEET_TRIES,
    });
    Started {
        code: refusal.number(),
        state: start.state,
    }
}

// Whether a free place's bytes after the phase are the ones that it writes.
fn free_spelt(s: &[u8], at: usize) -> bool
    requires { at + place_size ≤ length s.now }
    ensures { result ≡ same_bytes (replicate 6 0) (take 6 (drop (at + 1) s.now)) }
{
    and(
        and(
            and(s[at + 1] == 0, s[at + 2] == 0),
            and(s[at + 3] == 0, s[at + 4] == 0),
        ),
        and(s[at + 5] == 0, s[at + 6] == 0),
    )
}

// Whether a held place's phase, direction and tries are the ones that it writes; its partner always is.
fn held_spelt(phase: u8, direction: u8, used: u8) -> bool
    requires { 0 < phase }
    ensures { result ≡ same_bytes
        (phase_number (phase_of phase used) ∷ direction_number (direction_of direction) ∷ tries (phase_of phase used) ∷ [])
        (phase ∷ direction ∷ used ∷ []) }
{
    and(
        and(phase <= HIGHEST_PHASE, direction <= HIGHEST_DIRECTION),
        or(phase != OPEN, used == 0),
    )
}

// Whether the seven bytes from here on are the ones that their place writes.
pub(crate) fn place_spelt(s: &[u8], at: usize) -> bool
    requires { at + place_size ≤ length s.now }
    ensures { result ≡ same_bytes (place_bytes (place_in (drop at s.now))) (take place_size (drop at s.now)) }
{
    let phase = s[at];
    if phase == 0 {
        return free_spelt(s, at);
    }
    held_spelt(phase, s[at + 1], s[at + 2])
}

// Whether the bytes of the four places are the ones that they write.
fn places_spelt(body: &[u8]) -> bool
    requires { length body.now ≡ 41 }
    ensures { result ≡ same_bytes (places_bytes (places_in place_count (drop head_size body.now)))
        (take (place_count * place_size) (drop head_size body.now)) }
{
    for i in 0..PLACES {
        if !place_spelt(body, HEAD_SIZE + PLACE_SIZE * i) {
            return false;
        }
    }
    true
}

// Whether a byte is the one that its mark writes.
pub(crate) fn mark_spelt(b: u8) -> bool
    ensures { result ≡ eqb (as_bit (flag b)) b }
{
    b <= HIGHEST_MARK
}

// Whether the bytes of the four marks are the ones that they write.
fn marks_spelt(body: &[u8]) -> bool
    requires { length body.now ≡ 41 }
    ensures { result ≡ same_bytes (drop 4 (head_bytes (state_in body.now))) (take 4 (drop 4 body.now)) }
{
    and(
        and(mark_spelt(body[4]), mark_spelt(body[5])),
        and(mark_spelt(body[6]), mark_spelt(body[7])),
    )
}

// Whether the last four bytes are the ones that the last known RBC, which was read from them, writes.
fn last_spelt(body: &[u8], last: Last) -> bool
    requires { (length body.now ≡ 41) × (last ≡ last_in (drop last_from body.now)) }
    ensures { result ≡ same_bytes (last_bytes last) (drop last_from body.now) }
{
    match last {
        Last::Unknown => and(
            and(body[37] == 0, body[38] == 0),
            and(body[39] == 0, body[40] == 0),
        ),
        Last::Known { .. } => body[37] == 1,
    }
}

// Whether the bytes of a body are the ones that its state, which was read from them, writes.
fn is_spelt(body: &[u8], state: State) -> bool
    requires { (length body.now ≡ 41) × (state ≡ state_in body.now) }
    ensures { result ≡ same_bytes (whole_bytes (state_in body.now)) body.now }
{
    if !marks_spelt(body) {
        return false;
    }
    if !last_spelt(body, state.last) {
        return false;
    }
    places_spelt(body)
}

// The state of the 41 bytes of an image A2 after the kind; refusal 11 where its content is not sound.
fn read_body(body: &[u8]) -> Started
    requires { length body.now ≡ 41 }
    ensures { result ≡ read_body body.now }
{
    let state = state_in(body);
    if !state.is_sound() {
        return refused(Refusal::NotSound);
    }
    if !is_spelt(body, state) {
        return refused(Refusal::NotSound);
    }
    Started {
        code: ACCEPTED,
        state,
    }
}

// The state of the 36 bytes of an image A1 after the kind, read as three tries and no RBC known.
fn read_body_a1(body: &[u8]) -> Started
    requires { length body.now ≡ 36 }
    ensures { result ≡ read_body (body.now ++ tail_of_a1) }
{
    let mut whole = [0u8; 41];
    whole[..36].copy_from_slice(body);
    whole[36] = FLEET_TRIES;
    read_body(&whole)
}

// Reads an image A2: refusals 1 (empty), 2, 1 (length), 11, the first that applies; a refused read gives the cold state with X from
// 0 to 0 and three tries.
pub fn read_a2(bytes: &[u8]) -> Started
    ensures { result ≡ read_a2 bytes.now }
{
    if bytes.len() == 0 {
        return refused(Refusal::WrongLength);
    }
    if bytes[0] != KIND_A2 {
        return refused(Refusal::UnknownKind);
    }
    if bytes.len() != SIZE_A2 {
        return refused(Refusal::WrongLength);
    }
    read_body(&bytes[1..])
}

// Reads an image of either kind, told by its first byte: refusals as for A2, and 2 where it is neither. A1 is read as three tries and
// no RBC known.
pub fn read_image(bytes: &[u8]) -> Started
    ensures { result ≡ read_image bytes.now }
{
    if bytes.len() == 0 {
        return refused(Refusal::WrongLength);
    }
    if bytes[0] != KIND_A1 {
        return read_a2(bytes);
    }
    if bytes.len() != SIZE_A1 {
        return refused(Refusal::WrongLength);
    }
    read_body_a1(&bytes[1..])
}
