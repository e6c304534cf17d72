#![tactic(auto)]
// The vectors of the model of sheets, of marks, of the shunter and of sets, through the proved code; then a few of them, good and with each
// compared field wrong by itself (independent-model/judge_vectors.c, marks_vectors.c, shunter_vectors.c, sets_vectors.c), so that these
// have to be named and no other.
mod engine;
mod file;
mod judging;
mod log;
mod making;
mod marking;
mod room;
mod setting;
mod shunting;

use crate::file::{LONGEST, try_file};
use crate::judging::sheet_holds;
use crate::marking::marking_holds;
use crate::setting::setting_holds;
use crate::shunting::shunting_holds;
use std::io;

fn try_files(rt: &HostRuntime, room: &mut [u8; LONGEST]) -> io::Result<()> {
    try_file(rt, b"judge.bin", room, sheet_holds)?;
    try_file(rt, b"judge_spoilt.bin", room, sheet_holds)?;
    try_file(rt, b"marks.bin", room, marking_holds)?;
    try_file(rt, b"marks_spoilt.bin", room, marking_holds)?;
    try_file(rt, b"shunter.bin", room, shunting_holds)?;
    try_file(rt, b"shunter_spoilt.bin", room, shunting_holds)?;
    try_file(rt, b"sets.bin", room, setting_holds)?;
    try_file(rt, b"sets_spoilt.bin", room, setting_holds)
}

fn main(rt: HostRuntime) -> io::Result<()> {
    let mut room = [0u8; LONGEST];
    try_files(&rt, &mut room)
}
