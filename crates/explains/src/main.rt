#![tactic(auto)]
// Five logs in words, each after its name: empty, an unknown kind, too long, one that leaves places in every phase but Ending, and
// orders to the last known RBC.
use named_files::{Shows, show_each};
use std::fs::File;
use std::io;

const FILES: [(&str, &str); 5] = [
    ("empty", "empty.bin"),
    ("unknown", "unknown.bin"),
    ("long", "long.bin"),
    ("places", "places.bin"),
    ("last", "last.bin"),
];

// A log in words.
struct Explained;

impl Shows for Explained {
    fn show(rt: &HostRuntime, file: &mut File) -> io::Result<()> {
        explain_body::explain(rt, file)
    }
}

fn main(rt: HostRuntime) -> io::Result<()> {
    show_each::<Explained>(&rt, &FILES)
}
