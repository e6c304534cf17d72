#![tactic(auto)]
// The static library for C: the step and the cold start of firmware under their names, with its clauses.
ghost use Rattle.std.specs.Prelude.{◌≡◌, length};
ghost use Rattle.firmware.specs.Calls.{seen_after};
ghost use Rattle.firmware.specs.Starts.{start_returned, start_image, limits_of};

// One step on a stored image A2, called from C: as the function of the same name of firmware.
#[unsafe(no_mangle)]
pub extern "C" fn resheftal_step(image: &mut [u8], bytes: &[u8], actions: &mut [u8]) -> i32
    ensures { (result ≡ (seen_after image.old bytes.now actions.old).number)
        × (image.new ≡ (seen_after image.old bytes.now actions.old).image)
        × (actions.new ≡ (seen_after image.old bytes.now actions.old).actions) }
{
    firmware::step::resheftal_step(image, bytes, actions)
}

// The image A2 of a cold start, called from C: as the function of the same name of firmware.
#[unsafe(no_mangle)]
pub extern "C" fn resheftal_cold_start(
    lowest: u32,
    highest: u32,
    tries: u32,
    image: &mut [u8],
) -> i32
    ensures { (result ≡ start_returned (limits_of lowest highest tries) (length image.old))
        × (image.new ≡ start_image (limits_of lowest highest tries) image.old) }
{
    firmware::start::resheftal_cold_start(lowest, highest, tries, image)
}
