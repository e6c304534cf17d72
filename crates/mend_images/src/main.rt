#![tactic(auto)]
// Images mended, each after its name: a sound one, one with every field bad, one whose places repeat a partner, one with marks that
// are merely not 0, and one for each refusal.
use named_files::{Shows, show_each};
use std::fs::File;
use std::io;

const FILES: [(&str, &str); 8] = [
    ("sound", "sound.bin"),
    ("every field", "every.bin"),
    ("repeated partners", "repeated.bin"),
    ("marks", "marks.bin"),
    ("empty", "empty.bin"),
    ("old", "old.bin"),
    ("short", "short.bin"),
    ("ten tries", "ten.bin"),
];

// What a rescue mends of an image.
struct Mended;

impl Shows for Mended {
    fn show(rt: &HostRuntime, file: &mut File) -> io::Result<()> {
        explain_body::mended::mend_image(rt, file)
    }
}

fn main(rt: HostRuntime) -> io::Result<()> {
    show_each::<Mended>(&rt, &FILES)
}
