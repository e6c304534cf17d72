// The room that a vector lends to what writes, and what has to stand in it.
use vectors::part::Parts;

// What stands in a room before the call.
const FILL: u8 = 238;

// Whether a vector holds that lends a room of this length; one of more bytes than 4,096 does not.
pub(crate) fn lent<H: FnOnce(&mut [u8]) -> bool>(length: usize, holds: H) -> bool
    requires { H.IsAlwaysCallable holds }
{
    let mut bytes = [FILL; 4096];
    match bytes.get_mut(..length) {
        Some(room) => holds(room),
        None => false,
    }
}

// Whether all these bytes are as they were.
pub(crate) fn untouched(bytes: &[u8]) -> bool {
    bytes.iter().all(|byte| *byte == FILL)
}

// Whether a room has these bytes at its front, and the bytes behind them as they were.
pub(crate) fn room_is(room: &[u8], written: &[u8]) -> bool {
    room.front(written.len()) == written && untouched(room.rest(written.len()))
}
