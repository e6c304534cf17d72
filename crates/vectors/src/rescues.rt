// Vectors of a rescue: what it answers, and what it leaves of an image.
use crate::part::{Parts, announced, beyond};
use image::rescue::rescue;
use wire::byte::byte_at;

// Whether a rescue of this image answers and leaves these bytes: the code, the count, the fields, the image.
fn rescue_is(image: &mut [u8], s: &[u8]) -> bool {
    let rescued = rescue(image);
    let count = s.number_at(1);
    let listed = s.rest(2);
    let fields: &[u8] = &rescued.fields;
    rescued.code == byte_at(s, 0)
        && rescued.count == count
        && fields.front(count) == listed.front(count)
        && *image == *listed.rest(count)
}

// A rescue, of an image with zeros where the vector is cut off.
pub(crate) fn rescue_holds(s: &[u8]) -> bool {
    let mut room = [0u8; 256];
    for (byte, given) in room.iter_mut().zip(announced(s)) {
        *byte = *given;
    }
    rescue_is(&mut room[..s.number_at(0)], beyond(s))
}
