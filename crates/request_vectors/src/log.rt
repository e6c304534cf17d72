// A log that a vector tells behind four other bytes: a block so many times, and a tail.
use tools::text::put;
use vectors::part::Parts;

// Where the parts stand.
const REPEATS: usize = 4;

const BLOCK_LENGTH: usize = 6;

const BLOCK: usize = 8;

// The block, the tail, and what stands behind them.
fn block_of(v: &[u8]) -> &[u8] {
    v.rest(BLOCK).front(v.short_at(BLOCK_LENGTH))
}

fn tailed(v: &[u8]) -> &[u8] {
    v.rest(BLOCK).rest(v.short_at(BLOCK_LENGTH))
}

fn tail_of(v: &[u8]) -> &[u8] {
    let tail = tailed(v);
    tail.rest(2).front(tail.short_at(0))
}

// What stands behind the log.
pub(crate) fn asked(v: &[u8]) -> &[u8] {
    let tail = tailed(v);
    tail.rest(2).rest(tail.short_at(0))
}

// Writes the log into a room, and answers it.
pub(crate) fn expand<'a>(v: &[u8], room: &'a mut [u8]) -> &'a [u8] {
    let mut at = 0;
    for _ in 0..v.short_at(REPEATS) {
        at = put(room, at, block_of(v));
    }
    let length = put(room, at, tail_of(v));
    (&*room).front(length)
}
