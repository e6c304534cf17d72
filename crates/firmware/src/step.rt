// One step on a stored image, as C calls it.
ghost use Rattle.std.specs.Prelude.{◌≡◌, ◌≤◌, pos};
ghost use Rattle.std.specs.Int.{w32};
ghost use Rattle.std.proofs.Common.{SFits};
ghost use Rattle.unit.specs.Forms.{most_actions};
ghost use Rattle.firmware.specs.Calls.{below_none, seen_after};

use image::call::step_image;
use wire::refusal::ACCEPTED;

// Minus the number of a refusal.
pub fn minus(code: u8) -> i32
    ensures { (result ≡ below_none code) × SFits w32 (below_none code) }
{
    0 - code as i32
}

// The number of a step's actions.
fn number(count: usize) -> i32
    requires { count ≤ most_actions }
    ensures { (result ≡ pos count) × SFits w32 (pos count) }
{
    count as i32
}

// One step on a stored image A2: an event record in, the actions out, and the image then holds the next state. Answers the number of
// actions, or minus the refusal: 10 where the action buffer has under 20 bytes, then 1, 2, 1, 11 as for reading, then 1, 2, 1, 3 and
// those of the event. A refused call writes neither image nor actions; later bytes of the action buffer stay.
pub fn resheftal_step(image: &mut [u8], bytes: &[u8], actions: &mut [u8]) -> i32
    ensures { (result ≡ (seen_after image.old bytes.now actions.old).number)
        × (image.new ≡ (seen_after image.old bytes.now actions.old).image)
        × (actions.new ≡ (seen_after image.old bytes.now actions.old).actions) }
{
    let called = step_image(image, bytes, actions);
    let code = called.code;
    if code != ACCEPTED {
        return minus(code);
    }
    number(called.count)
}
