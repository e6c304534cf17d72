// How `resheftal` is used.
use crate::text::put_text;

// What help is asked for: all commands, or one.
#[derive(Clone, Copy)]
pub enum Topic {
    Commands,
    Judge,
    Produce,
    Marks,
    State,
    Shunter,
    Both,
}

const JUDGE: &str = "resheftal judge SHEET [--x LOWEST HIGHEST] [--tries N]\n  \
     says whether SHEET is what our box gives, and if not, where it first differs. A sheet has event records, each\n  \
     with its answer (1E and 0 or the refusal) and its actions behind it.\n";

const PRODUCE: &str = "resheftal produce LOG -o SHEET [--x LOWEST HIGHEST] [--tries N]\n  \
     writes the sheet that our box gives for LOG, which has event records alone, to SHEET (-o - is standard output).\n  \
     Where that fails, SHEET stays as it was.\n";

const MARKS: &str = "resheftal marks LOG -o MARKS [--extend] [--x LOWEST HIGHEST] [--tries N]\n  \
     writes the marks of LOG to MARKS: after each 256th record its offset and the state, 47 bytes. A file MARKS that is\n  \
     there is compared with them and stays as it was; with --extend it gets those of the records that LOG has more.\n";

const STATE: &str =
    "resheftal state LOG RECORD [--marks MARKS] [--x LOWEST HIGHEST] [--tries N]\n  \
     tells the state after the record of this number, 0 for the start, and the record that led there. With the marks\n  \
     of LOG at most 255 records are stepped for it, and without them all up to there.\n";

const SHUNTER: &str = "resheftal shunter LOG [--x LOWEST HIGHEST] [--tries N]\n  \
     tells what the shunter, which has two modems for the four places, does with LOG: of each record the answer, what\n  \
     went out, who holds a modem then and who waits for one, the longest waiting first; and how often each went out.\n";

const SETS: &str = "resheftal sets LOG [--x LOWEST HIGHEST] [--tries N]\n  \
     runs LOG through the engine of places and the engine of sets, and tells of each record the answer, what went out\n  \
     and the sets after it: calling, contacted, incoming, outgoing, lost, terminating. Where the two differ it says so.\n";

const COMMON: &str =
    "A file that is named - is standard input. --x and --tries say what the box was started with; without them X is\n\
     1 to 2 and tries are 3, as in the fitted fleets.\n\
     Status: 0 accepted, made, found or told; 1 another answer; 2 wrong use, or something cannot be read or written.\n";

const OTHERS: &str = "resheftal --help, resheftal COMMAND --help, resheftal --version\n";

fn commands_of(topic: Topic) -> &'static [&'static str] {
    match topic {
        Topic::Commands => &[JUDGE, PRODUCE, MARKS, STATE, SHUNTER, SETS, OTHERS],
        Topic::Judge => &[JUDGE],
        Topic::Produce => &[PRODUCE],
        Topic::Marks => &[MARKS],
        Topic::State => &[STATE],
        Topic::Shunter => &[SHUNTER],
        Topic::Both => &[SETS],
    }
}

// Tells how the commands are used, or one of them. Answers how long the text is.
pub fn help_text(topic: Topic, out: &mut [u8]) -> usize {
    let mut at = 0;
    for text in commands_of(topic) {
        at = put_text(out, at, *text);
    }
    put_text(out, at, COMMON)
}

// Tells which program this is. Answers how long the text is.
pub fn version_text(out: &mut [u8]) -> usize {
    put_text(
        out,
        0,
        "resheftal 1: judge, produce, marks, state, shunter, sets\n",
    )
}
