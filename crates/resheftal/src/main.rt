#![tactic(auto)]
// One tool over the box. The program itself ends with status 0: it writes its status as a digit to descriptor 3, and the script
// `resheftal` ends with it.
mod asked;
mod commands;
mod files;
mod marking;
mod say;
mod telling;

use crate::asked::{Asked, Command, Misuse, Request, Work, Wrong, read_words};
use crate::commands::{find, judge, make_sheet};
use crate::files::{Failed, front, read_named};
use crate::marking::Marking;
use crate::say::{Status, digit_of, help, misused, no_words, version};
use crate::telling::{compare, shunt};
use std::env::{Env, FillError};
use std::io;
use std::io::Write;
use streams::buffer;
use streams::files::open_write;
use tools::help::Topic;

// Where the status goes: descriptor 3.
const STATUS: &[u8] = b"/dev/fd/3";

impl From<Command> for Topic {
    fn from(command: Command) -> Topic {
        match command {
            Command::Judge => Topic::Judge,
            Command::Produce => Topic::Produce,
            Command::Marks => Topic::Marks,
            Command::State => Topic::State,
            Command::Shunter => Topic::Shunter,
            Command::Sets => Topic::Both,
        }
    }
}

// Reads the file that is asked for into a room, and does with it what is asked. A reference to an array of this length is lent on as a
// slice with no proof; an array of a million zeros is not.
fn work_in(rt: &HostRuntime, asked: Asked, room: &mut [u8; 1048577]) -> Result<Status, Failed> {
    let limits = asked.limits;
    let n = read_named(rt, asked.file, room)?;
    let bytes = front(room, n);
    match asked.work {
        Work::Judge => judge(rt, limits, bytes),
        Work::Produce { output } => make_sheet(rt, limits, bytes, output),
        Work::Marks { output, extends } => {
            let marking = Marking {
                limits,
                log: bytes,
                output,
                extends,
            };
            marking.mark(rt)
        }
        Work::State { record, marks } => find(rt, limits, bytes, record, marks),
        Work::Shunter => shunt(rt, limits, bytes),
        Work::Sets => compare(rt, limits, bytes),
    }
}

// Does what is asked for. The room is one byte more than the longest sheet or log, so that a longer one is refused, not cut.
fn run(rt: &HostRuntime, asked: Asked) -> Result<Status, Failed> {
    let mut room = [0u8; 1048577];
    work_in(rt, asked, &mut room)
}

// Does what a command with the words behind it asks for.
fn obey(rt: &HostRuntime, command: Command) -> Result<Status, Failed> {
    match read_words(rt, command) {
        Ok(Request::Help) => help(rt, Topic::from(command)),
        Ok(Request::Run(asked)) => run(rt, asked),
        Err(misuse) => Err(misused(rt, misuse)),
    }
}

// Does what the first word asks for.
fn answer(rt: &HostRuntime, name: &[u8]) -> Result<Status, Failed> {
    match name {
        b"--help" => help(rt, Topic::Commands),
        b"--version" => version(rt),
        _ => match Command::named(name) {
            Some(command) => obey(rt, command),
            None => Err(misused(
                rt,
                Misuse {
                    wrong: Wrong::Unknown,
                    at: 1,
                },
            )),
        },
    }
}

// Does what is asked for. The name of a command that is too long is that of none.
fn answer_words(rt: &HostRuntime) -> Result<Status, Failed> {
    let mut name = buffer();
    match rt.arg(1, &mut name) {
        Ok(n) => answer(rt, front(&name, n)),
        Err(FillError::TooLong) => answer(rt, b""),
        Err(FillError::NotPresent) => Err(no_words(rt)),
    }
}

// Writes the digit of a status to where it goes.
fn hand_over(rt: &HostRuntime, digit: u8) -> io::Result<()> {
    open_write(rt, STATUS)?.write_all(&[digit])
}

// That the status cannot be written is told nowhere.
fn main(rt: HostRuntime) {
    let _ = hand_over(&rt, digit_of(answer_words(&rt)));
}
