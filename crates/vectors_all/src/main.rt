#![tactic(auto)]
// All vectors of the independent model, judged; then a few of each group, good and with each compared field wrong by itself
// (independent-model/spoil.c), so that the judge has to name these and no other; then an image, held to bytes that were written by hand.
mod mixed;

use std::io;
use vectors::file::judge_file;

fn main(rt: HostRuntime) -> io::Result<()> {
    judge_file(&rt, b"vectors.bin")?;
    judge_file(&rt, b"spoilt.bin")?;
    mixed::image_of_mixed(&rt)
}
