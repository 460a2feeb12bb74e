// Program `decode` but for the system's calls: its turn, in which a line is taken out of the block and answered and what is not of that line is kept;
// and what the words of its command line ask.
#![tactic(auto)]

ghost use Rattle.std.specs.Prelude.{◌≡◌};
ghost use Rattle.decoding.specs.Turn.{answered_of, answered_in, turn_of, turn_in};
ghost use Rattle.decoding.specs.Asked.{asked_nothing, asked_by, option_by, show_of};

use inputs::Word;
use json_told::{Kept, Show};
use stream::{Input, Next};

// Document 01: "line over 1,024 bytes" is refused. A CR before the LF is not one of them.
const MOST: u16 = 1024;

// What a turn gives back: how far the input was taken, what is kept of its lines beside the record, and what came.
#[derive(Clone, Copy)]
pub struct Turned {
    pub input: Input,
    pub kept: Kept,
    pub next: Next,
}

// The next line that ends in the block, or at the end of the input what is held, answered.
// As `trace_turn::turn` over commands: one function for both would take what is done with a line as a closure over the lent buffers, and read no plainer.
pub fn turn(
    input: Input,
    ended: bool,
    kept: Kept,
    show: Show,
    state: &mut [u8],
    block: &[u8],
    line: &mut [u8],
    out: &mut [u8],
    tally: &mut [u64],
) -> Turned
    ensures { turn_in result state.new line.new out.new tally.new
        ≡ turn_of show input ended kept state.old block.now line.old out.old tally.old }
{
    let t = stream::take_line(input, ended, MOST, true, block, line);
    Turned {
        input: t.input,
        kept: answer_next(kept, t.next, show, state, line, out, tally),
        next: t.next,
    }
}

// What came is answered and counted.
fn answer_next(
    s: Kept,
    next: Next,
    show: Show,
    state: &mut [u8],
    line: &[u8],
    out: &mut [u8],
    tally: &mut [u64],
) -> Kept
    ensures { answered_in result state.new out.new tally.new
        ≡ answered_of show s next state.old line.now out.old tally.old }
{
    match next {
        Next::Line(n) => json_told::answer_line(s, n, line, show, state, out, tally),
        Next::TooLong => json_told::answer_long(s, line, show, out, tally),
        Next::Nothing => s,
        Next::Room => s,
    }
}

// What the words of the command line ask: the usage, that the launcher is told the status, no refusals, counts at the end; whether they name an input,
// and the place of the first that is no option of ours.
#[derive(Clone, Copy)]
pub struct Asked {
    pub help: bool,
    pub status: bool,
    pub quiet: bool,
    pub summary: bool,
    pub inputs: bool,
    pub unknown: Option<usize>,
}

// No words: nothing is asked.
pub fn nothing_asked() -> Asked
    ensures { result ≡ asked_nothing }
{
    Asked {
        help: false,
        status: false,
        quiet: false,
        summary: false,
        inputs: false,
        unknown: None,
    }
}

// One word more, the one at place i.
pub fn asked_by(asked: Asked, word: &[u8], i: usize) -> Asked
    ensures { result ≡ asked_by asked word.now i }
{
    let mut a = asked;
    match inputs::word_of(word) {
        Word::Help => a.help = true,
        Word::Status => a.status = true,
        Word::Input => a.inputs = true,
        Word::Option => return asked_by_option(a, word, i),
    }
    a
}

// An option of ours, or one that is unknown.
fn asked_by_option(asked: Asked, word: &[u8], i: usize) -> Asked
    ensures { result ≡ option_by asked word.now i }
{
    let mut a = asked;
    if word == b"--quiet".as_slice() {
        a.quiet = true;
        return a;
    }
    if word == b"--summary".as_slice() {
        a.summary = true;
        return a;
    }
    a.unknown = a.unknown.or(Some(i));
    a
}

// What is written of refused lines. No `From<bool>`, since `Show::from(true)` would not say which of the two is meant.
pub fn show_of(quiet: bool) -> Show
    ensures { result ≡ show_of quiet }
{
    if quiet { Show::Quiet } else { Show::All }
}
