#![tactic(auto)]
// The static library for C: what asks has beside a step, under its names, with its clauses.
ghost use Rattle.std.specs.Prelude.{◌≡◌};
ghost use Rattle.asks.specs.Asks.{interface_number, reads_returned, standing_returned};

// The number of the interface that this library has, called from C: as the function of the same name of asks.
#[unsafe(no_mangle)]
pub extern "C" fn resheftal_interface() -> u32
    ensures { result ≡ interface_number }
{
    asks::ask::resheftal_interface()
}

// Whether an image A2 reads, called from C: as the function of the same name of asks.
#[unsafe(no_mangle)]
pub extern "C" fn resheftal_reads(image: &[u8]) -> i32
    ensures { result ≡ reads_returned image.now }
{
    asks::ask::resheftal_reads(image)
}

// Where the partner of a record stands, called from C: as the function of the same name of asks.
#[unsafe(no_mangle)]
pub extern "C" fn resheftal_standing(image: &[u8], bytes: &[u8]) -> i32
    ensures { result ≡ standing_returned image.now bytes.now }
{
    asks::ask::resheftal_standing(image, bytes)
}
