// One step on a stored image: read, stepped, written; whether the state is sound is asked once, when it is read.
ghost use Rattle.std.specs.Prelude.{◌≡◌, length};
ghost use Rattle.image.specs.Calls.{on_image, image_after, actions_after, called_by};

use crate::read::read_a2;
use crate::write::put_image;
use unit::bytes::ACTION_ROOM;
use wire::refusal::{ACCEPTED, Refusal};

// What a step on an image answers: 0 or the number of the refusal, and how many actions were written.
#[derive(Clone, Copy)]
pub struct Called {
    pub code: u8,
    pub count: usize,
}

// One step on a stored image A2: an event record in, the actions out, and the image then holds the next state. Refusals: 10 where the
// action buffer has under 20 bytes, then 1, 2, 1, 11 as for reading, then 1, 2, 1, 3 and those of the event, the first that applies.
// A refused step writes neither image nor actions; later bytes of the action buffer stay.
pub fn step_image(image: &mut [u8], bytes: &[u8], actions: &mut [u8]) -> Called
    ensures { (result ≡ called_by (on_image image.old bytes.now (length actions.old)))
        × (image.new
        ≡ image_after (on_image image.old bytes.now (length actions.old)) image.old)
        × (actions.new
        ≡ actions_after (on_image image.old bytes.now (length actions.old)) actions.old) }
{
    if actions.len() < ACTION_ROOM {
        return Called {
            code: Refusal::NoRoom.number(),
            count: 0,
        };
    }
    let held = read_a2(image);
    if held.code != ACCEPTED {
        return Called {
            code: held.code,
            count: 0,
        };
    }
    let state = held.state;
    let stepped = state.on_record_unchecked(bytes, actions);
    let code = stepped.code;
    let count = stepped.count;
    if code != ACCEPTED {
        return Called { code, count };
    }
    let next = stepped.state;
    put_image(image, next);
    Called { code, count }
}
