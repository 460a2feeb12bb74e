// The comparing protocol over the proved library: each line of standard input is a command, and is answered with one line.
#![tactic(auto)]

use inputs::{Gone, Source, Status, Way, Word};
use stream::{Next, Teller};
use trace_turn::Answered;

const PROGRAM: [u8; 5] = *b"trace";

// Where commands come from, how many were answered, the record with the place after what was said, and how far the run is.
#[derive(Drop)]
struct Run {
    source: Source,
    number: u64,
    answered: Answered,
    way: Way,
}

// The number of commands after what came; no input has so many that the count would stay.
fn counted(number: u64, next: Next) -> u64 {
    match next {
        Next::Line(_) | Next::TooLong => number.saturating_add(1),
        Next::Nothing | Next::Room => number,
    }
}

// One command more, answered: the next one, or the last one. Between two commands what was said is written and more is read.
fn answer_one(rt: &HostRuntime, s: Run, block: &mut [u8], line: &mut [u8], out: &mut [u8]) -> Run {
    let ended = inputs::is_last(s.way);
    let t = trace_turn::turn(
        s.source.input,
        ended,
        s.answered.state,
        s.answered.at,
        block,
        line,
        out,
    );
    let said = t.answered;
    let number = counted(s.number, t.next);
    let teller = Teller {
        rt,
        program: &PROGRAM,
        number,
    };
    let source = inputs::taken(s.source, t.input);
    let gone = inputs::go_on(&teller, source, ended, t.next, said.at, block, out);
    after(gone, number, said)
}

// A run after what is done between two commands.
fn after(gone: Gone, number: u64, said: Answered) -> Run {
    Run {
        source: gone.source,
        number,
        answered: Answered {
            state: said.state,
            at: gone.used,
        },
        way: gone.way,
    }
}

// All commands. Nothing says that the input ends, so the loop has a number of rounds that no run uses up.
// `decode` has such a loop over its own run: one function for both would take a closure over five lent buffers, and read no plainer.
fn answer_all(rt: &HostRuntime, s: Run, block: &mut [u8], line: &mut [u8], out: &mut [u8]) -> Run {
    let mut now = s;
    for _ in 0..u64::MAX {
        if !inputs::is_on(now.way) {
            return now;
        }
        now = answer_one(rt, now, block, line, out);
    }
    now
}

// Answers standard input. Answers the status.
fn answer_input(rt: &HostRuntime) -> Status {
    let mut out = [0u8; 65536];
    let mut block = [0u8; 65536];
    let mut line = [0u8; 8192];
    let none = Answered {
        state: reassembly::fresh(),
        at: 0,
    };
    let begun = after(inputs::first_input(&at_start(rt), false), 0, none);
    let end = answer_all(rt, begun, &mut block, &mut line, &mut out);
    let teller = Teller {
        rt,
        program: &PROGRAM,
        number: end.number,
    };
    inputs::finish(&teller, end.way, &out, end.answered.at)
}

// Who tells what fails before the first command.
fn at_start(rt: &HostRuntime) -> Teller<'_> {
    Teller {
        rt,
        program: &PROGRAM,
        number: 0,
    }
}

// What the words of the command line ask: the usage, that the launcher is told the status, and the place of the last that is neither.
#[derive(Clone, Copy)]
struct Asked {
    help: bool,
    status: bool,
    unknown: Option<usize>,
}

// One word more.
fn ask_by(rt: &HostRuntime, asked: Asked, i: usize) -> Asked {
    let mut a = asked;
    let mut word = [0u8; 4096];
    match inputs::word_of(inputs::arg(rt, i, &mut word)) {
        Word::Help => a.help = true,
        Word::Status => a.status = true,
        Word::Input | Word::Option => a.unknown = Some(i),
    }
    a
}

// What the words of the command line ask.
fn ask(rt: &HostRuntime) -> Asked {
    let mut asked = Asked {
        help: false,
        status: false,
        unknown: None,
    };
    for i in 1..inputs::arg_count(rt) {
        asked = ask_by(rt, asked, i);
    }
    asked
}

// What is asked, done. Answers the status.
fn answer(rt: &HostRuntime, asked: Asked) -> Status {
    if asked.help {
        return help(rt);
    }
    if let Some(i) = asked.unknown {
        inputs::say_unknown(&at_start(rt), i);
        return Status::Wrong;
    }
    answer_input(rt)
}

// The usage. Answers the status.
fn help(rt: &HostRuntime) -> Status {
    inputs::put_usage(
        rt,
        b"usage: trace\n\
      Reads commands of the comparing protocol from standard input, one to a line, and answers each with one line.\n  \
      --help     this text\n",
    )
}

fn main(rt: HostRuntime) {
    let asked = ask(&rt);
    let status = answer(&rt, asked);
    if asked.status {
        inputs::tell_status(&rt, u8::from(status));
    }
}
