#![tactic(auto)]
// Images in words, each after its name: of an old box, one that an old box cannot read for its tries, one that holds all that a box
// can, and one for each refusal.
use named_files::{Shows, show_each};
use std::fs::File;
use std::io;

const FILES: [(&str, &str); 8] = [
    ("old", "old.bin"),
    ("five tries", "five.bin"),
    ("all", "all.bin"),
    ("empty", "empty.bin"),
    ("unknown kind", "unknown.bin"),
    ("long", "long.bin"),
    ("reserved", "reserved.bin"),
    ("old with four tries", "four.bin"),
];

// An image in words and in hex.
struct Shown;

impl Shows for Shown {
    fn show(rt: &HostRuntime, file: &mut File) -> io::Result<()> {
        explain_body::stored::show_image(rt, file)
    }
}

fn main(rt: HostRuntime) -> io::Result<()> {
    show_each::<Shown>(&rt, &FILES)
}
