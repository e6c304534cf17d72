// The words that a program was started with, as bytes.
ghost use Rattle.std.specs.Prelude.{◌≤◌, length};

use std::env::Env;

// Puts a word at the start of a room and answers its length; 0 where there is none of this number, or it is longer than the room.
pub fn word<E: Env>(rt: &E, i: usize, room: &mut [u8]) -> usize
    ensures { result ≤ length room.new }
{
    match rt.arg(i, room) {
        Ok(n) => n,
        Err(_) => 0,
    }
}
