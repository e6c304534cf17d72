// The image that a board starts from.
ghost use Rattle.std.specs.Prelude.{◌≡◌, cond, ltb, length};
ghost use Rattle.firmware.specs.Starts.{start_returned, start_image, limits_of};

use crate::step::minus;
use image::write::write_a2;
use place::limits::Limits;
use unit::start::cold_start;
use wire::refusal::ACCEPTED;

// A number as a byte, 255 where it is larger: a limit that is refused either way.
fn byte_of(n: u32) -> u8
    ensures { result ≡ cond (ltb n 256) n 255 }
{
    if n < 256 { n as u8 } else { 255 }
}

// Writes the image A2 of a cold start with the two X numbers and the number of tries to the front of a buffer. Answers 0, or minus the
// refusal: 13 where an X is over 7, the lowest is over the highest, or the tries are not 1 to 9, then 10 where the buffer has under 42
// bytes. A refused call writes nothing; later bytes stay.
pub fn resheftal_cold_start(lowest: u32, highest: u32, tries: u32, image: &mut [u8]) -> i32
    ensures { (result ≡ start_returned (limits_of lowest highest tries) (length image.old))
        × (image.new ≡ start_image (limits_of lowest highest tries) image.old) }
{
    let start = cold_start(Limits {
        lowest: byte_of(lowest),
        highest: byte_of(highest),
        tries: byte_of(tries),
    });
    if start.code != ACCEPTED {
        return minus(start.code);
    }
    let state = start.state;
    let stored = write_a2(state, image);
    minus(stored.code)
}
