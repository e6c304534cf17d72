// The functions that C asks with. None of them writes anything.
ghost use Rattle.std.specs.Prelude.{◌≡◌, ◌≤◌, pos};
ghost use Rattle.std.specs.Int.{w32};
ghost use Rattle.std.proofs.Common.{SFits};
ghost use Rattle.unit.specs.States.{place_count};
ghost use Rattle.asks.specs.Asks.{interface_number, reads_returned, standing_number, standing_returned};

use firmware::step::minus;
use image::read::read_a2;
use unit::search::Standing;
use wire::refusal::ACCEPTED;

// The number of the interface, as the header has it.
const INTERFACE: u32 = 1;

// What a place counts for where place and phase are one number.
const PER_PLACE: usize = 16;

// The number of the interface that this library has.
pub fn resheftal_interface() -> u32
    ensures { result ≡ interface_number }
{
    INTERFACE
}

// Whether an image A2 reads: 0, or minus the refusal, 1 (empty), 2, 1 (length), 11, the first that applies.
pub fn resheftal_reads(image: &[u8]) -> i32
    ensures { result ≡ reads_returned image.now }
{
    let found = read_a2(image);
    minus(found.code)
}

// Place and phase as one number; 0 where nothing is said.
fn told(standing: Standing) -> i32
    requires { standing.place ≤ place_count }
    ensures { (result ≡ pos (standing_number standing)) × SFits w32 (pos (standing_number standing)) }
{
    if standing.phase == 0 {
        return 0;
    }
    (PER_PLACE * standing.place + standing.phase as usize) as i32
}

// Where the partner of a record stands, of which a step on this image would say so, with refusal 5 or a partner's 7: 16 times its place,
// plus its phase; 0 where a step would say nothing; minus the refusal, as for reading, where the image does not read.
pub fn resheftal_standing(image: &[u8], bytes: &[u8]) -> i32
    ensures { result ≡ standing_returned image.now bytes.now }
{
    let held = read_a2(image);
    if held.code != ACCEPTED {
        return minus(held.code);
    }
    let state = held.state;
    let answer = state.apply(bytes);
    told(answer.standing)
}
