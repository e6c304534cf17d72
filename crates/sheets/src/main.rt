#![tactic(auto)]
// The sheets of six logs, each after its name: empty, 4,096 bytes, one byte more, 4,096 records, a short record at the end, an
// unknown kind.
use named_files::{Shows, show_each};
use std::fs::File;
use std::io;

const FILES: [(&str, &str); 6] = [
    ("empty", "empty.bin"),
    ("full", "full.bin"),
    ("long", "long.bin"),
    ("ones", "ones.bin"),
    ("short", "short.bin"),
    ("unknown", "unknown.bin"),
];

// The sheet of a log.
struct Sheet;

impl Shows for Sheet {
    fn show(rt: &HostRuntime, file: &mut File) -> io::Result<()> {
        sheet_body::sheet(rt, file)
    }
}

fn main(rt: HostRuntime) -> io::Result<()> {
    show_each::<Sheet>(&rt, &FILES)
}
