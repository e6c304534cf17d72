// What the words behind a command ask for: a file, the number of a record, options and their values.
use crate::files::front;
use place::limits::{FLEET_TRIES, Limits};
use std::env::{Env, FillError};
use streams::buffer;
use tools::started::{FLEET_HIGHEST, FLEET_LOWEST};

// A number grows no longer from here on: no log has so many records.
const LARGE: usize = 1_000_000_000;

// The option that asks for help.
const HELP: &[u8] = b"--help";

#[derive(Clone, Copy)]
pub(crate) enum Command {
    Judge,
    Produce,
    Marks,
    State,
    Shunter,
    Sets,
}

// What the next word is: an option or a file, or a value of the option before it.
#[derive(Clone, Copy, PartialEq)]
enum Next {
    Any,
    Lowest,
    Highest,
    Tries,
    Output,
    Marks,
}

// What is wrong with the words.
#[derive(Clone, Copy)]
pub(crate) enum Wrong {
    Unknown,
    OneTooMany,
    NoNumber,
    NoValue,
    WordTooLong,
    NoFile,
    NoOutput,
    NoRecord,
}

// Wrong use: what is wrong, and the word that was reached.
#[derive(Clone, Copy)]
pub(crate) struct Misuse {
    pub(crate) wrong: Wrong,
    pub(crate) at: usize,
}

// What is to be done with a file. An output and marks are the numbers of the words that name them.
#[derive(Clone, Copy)]
pub(crate) enum Work {
    Judge,
    Produce { output: usize },
    Marks { output: usize, extends: bool },
    State { record: usize, marks: Option<usize> },
    Shunter,
    Sets,
}

// What is asked for: what the box is started with, the number of the word that names the file, and what is to be done with it.
#[derive(Clone, Copy)]
pub(crate) struct Asked {
    pub(crate) limits: Limits,
    pub(crate) file: usize,
    pub(crate) work: Work,
}

// What the words behind a command ask for: help, or its work.
#[derive(Clone, Copy)]
pub(crate) enum Request {
    Help,
    Run(Asked),
}

// The words so far, of this command: the numbers of those that name the file, the output and the marks; the number of a record; whether
// marks are extended; what the box is started with; and what the next word is.
#[derive(Clone, Copy)]
struct Words {
    command: Command,
    file: Option<usize>,
    output: Option<usize>,
    marks: Option<usize>,
    record: Option<usize>,
    extends: bool,
    limits: Limits,
    next: Next,
}

impl Command {
    // The command of this name.
    pub(crate) fn named(name: &[u8]) -> Option<Command> {
        match name {
            b"judge" => Some(Command::Judge),
            b"produce" => Some(Command::Produce),
            b"marks" => Some(Command::Marks),
            b"state" => Some(Command::State),
            b"shunter" => Some(Command::Shunter),
            b"sets" => Some(Command::Sets),
            _ => None,
        }
    }

    // Whether it makes something, which -o names.
    fn makes(self) -> bool {
        matches!(self, Command::Produce | Command::Marks)
    }

    // Whether it can extend what it made.
    fn can_extend(self) -> bool {
        matches!(self, Command::Marks)
    }

    // Whether it looks up a record.
    fn looks_up(self) -> bool {
        matches!(self, Command::State)
    }
}

fn digit_of(b: u8) -> Option<u8> {
    b.checked_sub(b'0').filter(|digit| *digit < 10)
}

// A number with one more digit.
fn longer(n: usize, digit: u8) -> usize {
    if n >= LARGE {
        return n;
    }
    n * 10 + usize::from(digit)
}

// A number of decimal digits.
fn number_of(text: &[u8]) -> Result<usize, Wrong> {
    if text.is_empty() {
        return Err(Wrong::NoNumber);
    }
    let mut n = 0;
    for byte in text {
        let digit = digit_of(*byte).ok_or(Wrong::NoNumber)?;
        n = longer(n, digit);
    }
    Ok(n)
}

// A number for the start; over 255 it is 255, which no box starts with.
fn start_number(text: &[u8]) -> Result<u8, Wrong> {
    let n = number_of(text)?;
    Ok(u8::try_from(n).unwrap_or(u8::MAX))
}

// Whether a word is an option: a dash and more. A dash alone is standard input or output.
fn is_option(text: &[u8]) -> bool {
    matches!(text, [b'-', _, ..])
}

// What is given now, where nothing was.
fn once(given: Option<usize>, now: usize) -> Result<Option<usize>, Wrong> {
    match given {
        None => Ok(Some(now)),
        Some(_) => Err(Wrong::OneTooMany),
    }
}

impl Words {
    // None yet, of this command.
    fn none(command: Command) -> Words {
        Words {
            command,
            file: None,
            output: None,
            marks: None,
            record: None,
            extends: false,
            limits: Limits {
                lowest: FLEET_LOWEST,
                highest: FLEET_HIGHEST,
                tries: FLEET_TRIES,
            },
            next: Next::Any,
        }
    }

    fn awaiting(self, next: Next) -> Result<Words, Wrong> {
        Ok(Words { next, ..self })
    }

    // With a file, or with the number of a record behind it.
    fn with_plain(self, at: usize, text: &[u8]) -> Result<Words, Wrong> {
        if self.file.is_none() {
            return Ok(Words {
                file: Some(at),
                ..self
            });
        }
        if !self.command.looks_up() || self.record.is_some() {
            return Err(Wrong::OneTooMany);
        }
        let record = number_of(text)?;
        Ok(Words {
            record: Some(record),
            ..self
        })
    }

    // With an option or a plain word.
    fn with_any(self, at: usize, text: &[u8]) -> Result<Words, Wrong> {
        match text {
            b"--x" => self.awaiting(Next::Lowest),
            b"--tries" => self.awaiting(Next::Tries),
            b"-o" if self.command.makes() => self.awaiting(Next::Output),
            b"--marks" if self.command.looks_up() => self.awaiting(Next::Marks),
            b"--extend" if self.command.can_extend() => Ok(Words {
                extends: true,
                ..self
            }),
            _ if is_option(text) => Err(Wrong::Unknown),
            _ => self.with_plain(at, text),
        }
    }

    // With the word of this number.
    fn with_word(mut self, at: usize, text: &[u8]) -> Result<Words, Wrong> {
        let awaited = self.next;
        self.next = Next::Any;
        match awaited {
            Next::Any => return self.with_any(at, text),
            Next::Lowest => {
                self.limits.lowest = start_number(text)?;
                self.next = Next::Highest;
            }
            Next::Highest => self.limits.highest = start_number(text)?,
            Next::Tries => self.limits.tries = start_number(text)?,
            Next::Output => self.output = once(self.output, at)?,
            Next::Marks => self.marks = once(self.marks, at)?,
        }
        Ok(self)
    }

    // When all words are read: what is missing is wrong.
    fn whole(self) -> Result<Asked, Wrong> {
        if self.next != Next::Any {
            return Err(Wrong::NoValue);
        }
        let file = self.file.ok_or(Wrong::NoFile)?;
        let work = match self.command {
            Command::Judge => Work::Judge,
            Command::Produce => Work::Produce {
                output: self.output.ok_or(Wrong::NoOutput)?,
            },
            Command::Marks => Work::Marks {
                output: self.output.ok_or(Wrong::NoOutput)?,
                extends: self.extends,
            },
            Command::State => Work::State {
                record: self.record.ok_or(Wrong::NoRecord)?,
                marks: self.marks,
            },
            Command::Shunter => Work::Shunter,
            Command::Sets => Work::Sets,
        };
        Ok(Asked {
            limits: self.limits,
            file,
            work,
        })
    }
}

// What the words behind this command ask for. A word that is an option and asks for help does so, if nothing is wrong before it.
pub(crate) fn read_words(rt: &HostRuntime, command: Command) -> Result<Request, Misuse> {
    let mut words = Words::none(command);
    let mut reached = 0;
    for at in 2..usize::MAX {
        let mut room = buffer();
        let more = match rt.arg(at, &mut room) {
            Ok(n) => {
                let text = front(&room, n);
                if words.next == Next::Any && text == HELP {
                    return Ok(Request::Help);
                }
                words.with_word(at, text)
            }
            Err(FillError::TooLong) => Err(Wrong::WordTooLong),
            Err(FillError::NotPresent) => break,
        };
        words = more.map_err(|wrong| Misuse { wrong, at })?;
        reached = at;
    }
    match words.whole() {
        Ok(asked) => Ok(Request::Run(asked)),
        Err(wrong) => Err(Misuse { wrong, at: reached }),
    }
}
