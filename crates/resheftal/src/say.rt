// What is said on standard output and standard error, and the status after it.
use crate::asked::{Misuse, Wrong};
use crate::files::{Failed, complain, front, reached};
use std::io::Write;
use streams::buffer;
use streams::words::word;
use tools::help::{Topic, help_text, version_text};
use tools::text::Told;

// The status after what was asked for: accepted, made or found; or another answer.
#[derive(Clone, Copy)]
pub(crate) enum Status {
    Done,
    Another,
}

// The digit of a status; 2 is that of wrong use, or of something that cannot be read or written.
pub(crate) fn digit_of(answer: Result<Status, Failed>) -> u8 {
    match answer {
        Ok(Status::Done) => b'0',
        Ok(Status::Another) => b'1',
        Err(Failed) => b'2',
    }
}

// Writes bytes to standard output; that they cannot be written is told.
pub(crate) fn say(rt: &HostRuntime, bytes: &[u8]) -> Result<(), Failed> {
    reached(rt, b"standard output", rt.stdout().write_all(bytes))
}

// The status after a text that says that all is as it must be, or not.
pub(crate) fn status_of(accepted: bool) -> Status {
    if accepted {
        Status::Done
    } else {
        Status::Another
    }
}

// Says the text that ends what is told.
pub(crate) fn conclude(rt: &HostRuntime, accepted: bool, text: &[u8]) -> Result<Status, Failed> {
    say(rt, text)?;
    Ok(status_of(accepted))
}

// The status after what was told, the front of a room.
pub(crate) fn tell(rt: &HostRuntime, told: Told, room: &[u8]) -> Result<Status, Failed> {
    conclude(rt, told.accepted, front(room, told.length))
}

pub(crate) fn help(rt: &HostRuntime, topic: Topic) -> Result<Status, Failed> {
    let mut out = buffer();
    let n = help_text(topic, &mut out);
    conclude(rt, true, front(&out, n))
}

// No word at all: how the commands are used, on standard error.
pub(crate) fn no_words(rt: &HostRuntime) -> Failed {
    let mut out = buffer();
    let n = help_text(Topic::Commands, &mut out);
    complain(rt, front(&out, n));
    Failed
}

pub(crate) fn version(rt: &HostRuntime) -> Result<Status, Failed> {
    let mut out = buffer();
    let n = version_text(&mut out);
    conclude(rt, true, front(&out, n))
}

// Words on standard error, and then the word of this number.
fn complain_of(rt: &HostRuntime, words: &[u8], at: usize) {
    let mut name = buffer();
    let n = word(rt, at, &mut name);
    complain(rt, words);
    complain(rt, front(&name, n));
}

// Tells of wrong use: what is wrong, and at which word.
pub(crate) fn misused(rt: &HostRuntime, misuse: Misuse) -> Failed {
    let at = misuse.at;
    complain(rt, b"resheftal: ");
    match misuse.wrong {
        Wrong::Unknown => complain_of(rt, b"no such command or option: ", at),
        Wrong::OneTooMany => complain_of(rt, b"one word too many: ", at),
        Wrong::NoNumber => complain_of(rt, b"not a number: ", at),
        Wrong::NoValue => complain_of(rt, b"something is missing behind ", at),
        Wrong::WordTooLong => complain(rt, b"a word is too long"),
        Wrong::NoFile => complain(rt, b"no file is named"),
        Wrong::NoOutput => complain(rt, b"-o and the name of a file are needed"),
        Wrong::NoRecord => complain(rt, b"no record is given"),
    }
    complain(rt, b" (resheftal --help says how it is used)\n");
    Failed
}
