#![tactic(auto)]
// The program `show_image`: the image on standard input in words, and in hex as A2 and as A1.
use std::io;

fn main(rt: HostRuntime) -> io::Result<()> {
    explain_body::stored::show_image(&rt, &mut rt.stdin())
}
