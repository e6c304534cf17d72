#![tactic(auto)]
// The program `mend_image`: what a rescue mends of the image A2 on standard input, field by field, and the mended image in hex.
use std::io;

fn main(rt: HostRuntime) -> io::Result<()> {
    explain_body::mended::mend_image(&rt, &mut rt.stdin())
}
