// Mending a spoilt image A2 in place: what is good stays, and each changed field is listed.
ghost use Rattle.std.specs.Prelude.{◌≡◌, ℕ, ◌+◌, ◌*◌, ◌≤◌, ◌<◌, ◌&&◌, List, [], length, set, drop, replicate};
ghost use Rattle.record.specs.Partners.{partner_at};
ghost use Rattle.place.specs.Places.{holds};
ghost use Rattle.unit.specs.States.{place_count, some, absent_from};
ghost use Rattle.image.specs.Images.{size_a2, place_size, last_size, place_in, places_in, state_in};
ghost use Rattle.image.specs.Bodies.{places_at, last_at};
ghost use Rattle.image.specs.Rescue.{within, is_place_of, is_last_of, field_offsets, most_fields, size_of, changed, listing, left};
ghost use Rattle.image.specs.Rescue.{rescue, rescued};
ghost use Rattle.image.specs.Mends.{head_fields, tries_at, Mendable, Field, Cleared, MendedTo};
ghost use Rattle.wire.specs.Bytes.{byte};
ghost use Rattle.wire.specs.Refusals.{accepted, number};

use crate::layout::{KIND_A2, LAST_AT, LAST_SIZE, PLACE_SIZE, PLACES_AT, SIZE_A2};
use crate::read::{HIGHEST_MARK, held_of, limits_in, mark_spelt, place_spelt};
use place::limits::Limits;
use record::partner::{Partner, RBC};
use record::read::{HIGHEST_LEVEL, HIGHEST_MISSION};
use unit::state::{PLACES, limits_ok};
use wire::join::{and, negated};
use wire::refusal::{ACCEPTED, Refusal};

// The first offsets of the places and of the last known RBC, as they are listed.
const FIRST_PLACE: u8 = PLACES_AT as u8;

const NEXT_PLACE: u8 = PLACE_SIZE as u8;

const LAST_FIELD: u8 = LAST_AT as u8;

// The most fields that can change.
pub const FIELDS: usize = 11;

// What a rescue answers: 0 or the number of the refusal, and the first offsets of the changed fields, ascending.
#[derive(Clone, Copy)]
pub struct Rescued {
    pub code: u8,
    pub fields: [u8; 11],
    pub count: usize,
}

// The bytes of the field that begins here.
pub fn size_of(at: usize) -> usize
    ensures { result ≡ size_of at }
{
    if at < PLACES_AT {
        1
    } else if at < LAST_AT {
        PLACE_SIZE
    } else {
        LAST_SIZE
    }
}

// The answer that lists nothing.
fn nothing(refusal: Refusal) -> Rescued
    ensures { result ≡ listing (number refusal) [] }
{
    Rescued {
        code: refusal.number(),
        fields: [0; FIELDS],
        count: 0,
    }
}

// Lists a field after the others, and answers how many are listed then.
fn list_field(fields: &mut [u8], count: usize, at: u8) -> usize
    requires { count < length fields.old }
    ensures { (result ≡ count + 1) × (fields.new ≡ set fields.old count at) }
{
    fields[count] = at;
    count + 1
}

// Clears a byte that is not good, and lists it.
fn mend_byte(image: &mut [u8], at: u8, good: bool, fields: &mut [u8], count: usize) -> usize
    requires { (at < length image.old) × (count < length fields.old) }
    ensures { Cleared good at 1 image.old fields.old count image.new fields.new result }
{
    if good {
        return count;
    }
    image[usize::from(at)] = 0;
    list_field(fields, count, at)
}

// Frees a place that is not good, and lists it.
fn mend_place(image: &mut [u8], at: u8, good: bool, fields: &mut [u8], count: usize) -> usize
    requires { (at + place_size ≤ length image.old) × (count < length fields.old) }
    ensures { Cleared good at place_size image.old fields.old count image.new fields.new result }
{
    if good {
        return count;
    }
    let from = usize::from(at);
    image[from] = 0;
    image[from + 1] = 0;
    image[from + 2] = 0;
    image[from + 3] = 0;
    image[from + 4] = 0;
    image[from + 5] = 0;
    image[from + 6] = 0;
    list_field(fields, count, at)
}

// Forgets a last RBC that is not good, and lists it.
fn mend_last(image: &mut [u8], good: bool, fields: &mut [u8], count: usize) -> usize
    requires { (length image.old ≡ size_a2) × (count < length fields.old) }
    ensures { Cleared good last_at last_size image.old fields.old count image.new fields.new result }
{
    if good {
        return count;
    }
    image[LAST_AT] = 0;
    image[LAST_AT + 1] = 0;
    image[LAST_AT + 2] = 0;
    image[LAST_AT + 3] = 0;
    list_field(fields, count, LAST_FIELD)
}

// The partner of the place that begins here.
fn partner_in(image: &[u8], at: usize) -> Partner
    requires { (at < 64) × (at + place_size ≤ length image.now) }
    ensures { result ≡ partner_at 3 (drop at image.now) }
{
    Partner {
        kind: image[at + 3],
        high: image[at + 4],
        middle: image[at + 5],
        low: image[at + 6],
    }
}

// Whether a lower place holds the partner of the one that begins here.
fn repeats(image: &[u8], at: usize) -> bool
    requires { (at < 64) × (at + place_size ≤ length image.now) }
    ensures { (i : ℕ) → at ≡ places_at + place_size * i
        → result ≡ some (holds (partner_at 3 (drop at image.now))) (places_in i (drop places_at image.now)) }
{
    let partner = partner_in(image, at);
    let mut lower = PLACES_AT;
    loop {
        if lower >= at {
            break false;
        }
        let other = partner_in(image, lower);
        if and(image[lower] != 0, partner.same(other)) {
            break true;
        }
        lower += PLACE_SIZE;
    }
}

// Whether the place that begins here is kept: it is sound by itself, these are its bytes, and no lower place holds its partner.
fn keeps_place(image: &[u8], at: usize, limits: Limits) -> bool
    requires { (at < 64) × (at + place_size ≤ length image.now) }
    ensures { (i : ℕ) → at ≡ places_at + place_size * i
        → result ≡ (is_place_of limits (drop at image.now)
        && absent_from (places_in i (drop places_at image.now)) (place_in (drop at image.now)).holding) }
{
    if place_spelt(image, at) {
        let phase = image[at];
        if phase == 0 {
            return true;
        }
        let place = held_of(phase, image[at + 1], image[at + 2], partner_in(image, at));
        if place.is_sound(limits) {
            negated(repeats(image, at))
        } else {
            false
        }
    } else {
        false
    }
}

// Whether the last known RBC is kept: it is none or sound, and these are its bytes.
fn keeps_last(image: &[u8]) -> bool
    requires { length image.now ≡ size_a2 }
    ensures { result ≡ is_last_of (drop last_at image.now) }
{
    let flag = image[LAST_AT];
    if flag == 0 {
        return and(
            image[LAST_AT + 1] == 0,
            and(image[LAST_AT + 2] == 0, image[LAST_AT + 3] == 0),
        );
    }
    let partner = Partner {
        kind: RBC,
        high: image[LAST_AT + 1],
        middle: image[LAST_AT + 2],
        low: image[LAST_AT + 3],
    };
    and(flag == 1, partner.can_be_named())
}

// Clears a number over its highest value, and lists it.
fn mend_number(image: &mut [u8], at: u8, most: u8, fields: &mut [u8], count: usize) -> usize
    requires { (at < length image.old) × (count < length fields.old) }
    ensures { (old : List ℕ) (n : ℕ) → Field old n at 1 → byte (left old) at ≡ within most (byte old at)
        → MendedTo old n at image.old fields.old count
        → MendedTo old (n + 1) (at + 1) image.new fields.new result }
{
    let good = image[usize::from(at)] <= most;
    mend_byte(image, at, good, fields, count)
}

// Clears the mark of a hole end that is out of range or set inside a hole, and lists it.
fn mend_end(image: &mut [u8], fields: &mut [u8], count: usize) -> usize
    requires { (length image.old ≡ size_a2) × (count < length fields.old) }
    ensures { (old : List ℕ) → length old ≡ size_a2
        → MendedTo old 5 8 image.old fields.old count
        → MendedTo old head_fields places_at image.new fields.new result }
{
    let good = and(
        mark_spelt(image[8]),
        negated(and(image[5] == 1, image[8] == 1)),
    );
    mend_byte(image, 8, good, fields, count)
}

// Mends the level, the mission and the marks.
fn mend_head(image: &mut [u8], fields: &mut [u8]) -> usize
    requires { Mendable image.old × (fields.old ≡ replicate most_fields 0) }
    ensures { MendedTo image.old head_fields places_at image.new fields.new result }
{
    let level = mend_number(image, 3, HIGHEST_LEVEL, fields, 0);
    let mission = mend_number(image, 4, HIGHEST_MISSION, fields, level);
    let inside = mend_number(image, 5, HIGHEST_MARK, fields, mission);
    let mode = mend_number(image, 6, HIGHEST_MARK, fields, inside);
    let manual = mend_number(image, 7, HIGHEST_MARK, fields, mode);
    mend_end(image, fields, manual)
}

// Mends the places, going upwards.
fn mend_places(image: &mut [u8], limits: Limits, fields: &mut [u8], count: usize) -> usize
    requires { (length image.old ≡ size_a2) × ((length fields.old ≡ most_fields) × (count ≤ head_fields)) }
    ensures { (old : List ℕ) → length old ≡ size_a2 → limits ≡ (state_in (drop 1 old)).limits
        → MendedTo old head_fields places_at image.old fields.old count
        → MendedTo old (head_fields + place_count) tries_at image.new fields.new result }
{
    let mut listed = count;
    for i in 0..PLACES {
        let at = FIRST_PLACE + NEXT_PLACE * i as u8;
        let good = keeps_place(image, usize::from(at), limits);
        listed = mend_place(image, at, good, fields, listed);
    }
    listed
}

// Mends an image, field by field, and answers how many are listed.
fn mend_fields(image: &mut [u8], limits: Limits, fields: &mut [u8]) -> usize
    requires { Mendable image.old
        × ((limits ≡ (state_in (drop 1 image.old)).limits) × (fields.old ≡ replicate most_fields 0)) }
    ensures { MendedTo image.old most_fields size_a2 image.new fields.new result }
{
    let head = mend_head(image, fields);
    let places = mend_places(image, limits, fields, head);
    let good = keeps_last(image);
    mend_last(image, good, fields, places)
}

// Mends an image with good limits.
fn mend(image: &mut [u8], limits: Limits) -> Rescued
    requires { Mendable image.old × (limits ≡ (state_in (drop 1 image.old)).limits) }
    ensures { (result ≡ listing accepted (changed field_offsets image.old (left image.old)))
        × (image.new ≡ left image.old) }
{
    let mut fields = [0u8; FIELDS];
    let count = mend_fields(image, limits, &mut fields);
    Rescued {
        code: ACCEPTED,
        fields,
        count,
    }
}

// Mends an image A2 in place and lists each changed field by its first offset: refusals 1 (empty), 2, 1 (length), and 11 where the X
// numbers or the number of tries are bad, the first that applies. A refused rescue changes no byte and lists nothing; nor does one of
// a sound image.
pub fn rescue(image: &mut [u8]) -> Rescued
    ensures { (result ≡ rescue image.old)
        × (image.new ≡ rescued image.old) }
{
    if image.len() == 0 {
        return nothing(Refusal::WrongLength);
    }
    if image[0] != KIND_A2 {
        return nothing(Refusal::UnknownKind);
    }
    if image.len() != SIZE_A2 {
        return nothing(Refusal::WrongLength);
    }
    let limits = limits_in(&image[1..]);
    if limits_ok(limits) {
        mend(image, limits)
    } else {
        nothing(Refusal::NotSound)
    }
}
