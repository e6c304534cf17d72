#![tactic(auto)]
// The text of a sheet, put into a lent buffer: numbers in decimal, the line of a record, the last line.
// Each function `put_..` puts its text at a place of the buffer, where it has room, and answers the place after it; other bytes stay.
ghost use Rattle.std.specs.Prelude.{◌≡◌, ◌+◌, [], ◌∷◌, length, take};
ghost use Rattle.wire.specs.Blocks.{blocks};
ghost use Rattle.text.specs.Texts.{decimal, partner_number, action_text, line_text, end_text};
ghost use Rattle.text.specs.Making.{HasRoom, Put};

use record::partner::Partner;
use unit::answer::{Action, Actions, MOST_ACTIONS};

pub mod sheet;

const NEWLINE: u8 = 10;

const SPACE: u8 = 32;

const SLASH: u8 = 47;

const DIGIT_ZERO: u8 = 48;

const COLON: u8 = 58;

fn partner_number(p: Partner) -> u32
    ensures { result ≡ partner_number p }
{
    u32::from_be_bytes([0, p.high, p.middle, p.low])
}

// One character.
fn put_byte(buffer: &mut [u8], at: usize, b: u8) -> usize
    requires { HasRoom (b ∷ []) at buffer.old }
    ensures { Put (b ∷ []) at buffer.old result buffer.new }
{
    buffer[at] = b;
    at + 1
}

// These characters, one after the other.
pub(crate) fn put_words(buffer: &mut [u8], at: usize, words: &[u8]) -> usize
    requires { HasRoom words.now at buffer.old }
    ensures { Put words.now at buffer.old result buffer.new }
{
    let end = at + words.len();
    buffer[at..end].copy_from_slice(words);
    end
}

// How many digits a number has.
fn digit_count(n: u32) -> usize
    ensures { result ≡ length (decimal n) }
{
    match n.checked_ilog10() {
        Some(power) => power as usize + 1,
        None => 1,
    }
}

// A number in decimal, from its last digit to its first.
fn put_number(buffer: &mut [u8], at: usize, n: u32) -> usize
    requires { HasRoom (decimal n) at buffer.old }
    ensures { Put (decimal n) at buffer.old result buffer.new }
{
    let end = at + digit_count(n);
    let mut i = end;
    let mut rest = n;
    while rest >= 10 {
        i -= 1;
        buffer[i] = DIGIT_ZERO + (rest % 10) as u8;
        rest /= 10;
    }
    buffer[at] = DIGIT_ZERO + rest as u8;
    end
}

// A character and then a number.
fn put_field(buffer: &mut [u8], at: usize, before: u8, n: u32) -> usize
    requires { HasRoom (before ∷ decimal n) at buffer.old }
    ensures { Put (before ∷ decimal n) at buffer.old result buffer.new }
{
    let begun = put_byte(buffer, at, before);
    put_number(buffer, begun, n)
}

// An action as number:type/partner, after a space.
fn put_action(buffer: &mut [u8], at: usize, action: Action) -> usize
    requires { HasRoom (action_text action) at buffer.old }
    ensures { Put (action_text action) at buffer.old result buffer.new }
{
    let partner = action.partner;
    let numbered = put_field(buffer, at, SPACE, u32::from(action.number));
    let typed = put_field(buffer, numbered, COLON, u32::from(partner.kind));
    put_field(buffer, typed, SLASH, partner_number(partner))
}

// The actions of a record, one after the other.
fn put_actions(buffer: &mut [u8], at: usize, actions: Actions) -> usize
    requires { HasRoom (blocks action_text (take actions.count actions.items)) at buffer.old }
    ensures { Put (blocks action_text (take actions.count actions.items)) at buffer.old result buffer.new }
{
    let mut next = at;
    let told = actions.count.min(MOST_ACTIONS);
    for action in &actions.items[..told] {
        next = put_action(buffer, next, *action);
    }
    next
}

// The line of a record.
pub(crate) fn put_line(
    buffer: &mut [u8],
    at: usize,
    number: u32,
    kind: u8,
    code: u8,
    actions: Actions,
) -> usize
    requires { HasRoom (line_text number kind code (take actions.count actions.items)) at buffer.old }
    ensures { Put (line_text number kind code (take actions.count actions.items)) at buffer.old result buffer.new }
{
    let numbered = put_number(buffer, at, number);
    let kinded = put_field(buffer, numbered, SPACE, u32::from(kind));
    let coded = put_field(buffer, kinded, SPACE, u32::from(code));
    let told = put_actions(buffer, coded, actions);
    put_byte(buffer, told, NEWLINE)
}

// The last line.
pub(crate) fn put_end(buffer: &mut [u8], at: usize, stop: u8, read: u32) -> usize
    requires { HasRoom (end_text stop read) at buffer.old }
    ensures { Put (end_text stop read) at buffer.old result buffer.new }
{
    let begun = put_words(buffer, at, b"end ");
    let stopped = put_number(buffer, begun, u32::from(stop));
    let told = put_field(buffer, stopped, SPACE, read);
    put_byte(buffer, told, NEWLINE)
}
