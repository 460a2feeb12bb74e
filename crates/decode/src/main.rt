// AIS lines, as a receiver or a log gives them, to a JSON object for each complete message and each refused line.
#![tactic(auto)]

use decoding::Asked;
use inputs::{Gone, Source, Status, Way};
use json_told::{Kept, Show};
use stream::Teller;
use text_out::Output;

const PROGRAM: [u8; 6] = *b"decode";

// Where lines come from, what is kept of them beside the record, and how far the run is.
#[derive(Drop)]
struct Run {
    source: Source,
    kept: Kept,
    way: Way,
}

// One line more, answered: the next one, or the last one of an input. Between two lines what was told is written and more is read.
fn answer_one(
    rt: &HostRuntime,
    s: Run,
    show: Show,
    state: &mut [u8],
    block: &mut [u8],
    line: &mut [u8],
    out: &mut [u8],
    tally: &mut [u64],
) -> Run {
    let ended = inputs::is_last(s.way);
    let t = decoding::turn(
        s.source.input,
        ended,
        s.kept,
        show,
        state,
        block,
        line,
        out,
        tally,
    );
    let told = t.kept;
    let teller = Teller {
        rt,
        program: &PROGRAM,
        number: told.number,
    };
    let source = inputs::taken(s.source, t.input);
    let gone = inputs::go_on(&teller, source, ended, t.next, told.used, block, out);
    after(gone, told)
}

// A run after what is done between two lines.
fn after(gone: Gone, told: Kept) -> Run {
    Run {
        source: gone.source,
        kept: Kept {
            number: told.number,
            used: gone.used,
        },
        way: gone.way,
    }
}

// All lines. Nothing says that an input ends, so the loop has a number of rounds that no run uses up.
// `trace` has such a loop over its own run: one function for both would take a closure over five lent buffers, and read no plainer.
fn answer_all(
    rt: &HostRuntime,
    s: Run,
    show: Show,
    state: &mut [u8],
    block: &mut [u8],
    line: &mut [u8],
    out: &mut [u8],
    tally: &mut [u64],
) -> Run {
    let mut now = s;
    for _ in 0..u64::MAX {
        if !inputs::is_on(now.way) {
            return now;
        }
        now = answer_one(rt, now, show, state, block, line, out, tally);
    }
    now
}

// The inputs that are asked for, and what is said at their end. Answers the status.
fn answer_inputs(rt: &HostRuntime, asked: Asked) -> Status {
    let mut out = [0u8; 65536];
    let mut block = [0u8; 65536];
    let mut state = [0u8; 400];
    let mut line = [0u8; 1024];
    let mut tally = [0u64; 256];
    let none = Kept { number: 0, used: 0 };
    let begun = after(inputs::first_input(&at_start(rt), asked.inputs), none);
    let show = decoding::show_of(asked.quiet);
    let end = answer_all(
        rt, begun, show, &mut state, &mut block, &mut line, &mut out, &mut tally,
    );
    let teller = Teller {
        rt,
        program: &PROGRAM,
        number: end.kept.number,
    };
    let status = inputs::finish(&teller, end.way, &out, end.kept.used);
    say_end(rt, &state, asked.summary, &tally);
    status
}

// Who tells what fails before the first line.
fn at_start(rt: &HostRuntime) -> Teller<'_> {
    Teller {
        rt,
        program: &PROGRAM,
        number: 0,
    }
}

// What is said on standard error at the end: a message that is unfinished, and counts where they are asked.
fn say_end(rt: &HostRuntime, state: &[u8], counts: bool, tally: &[u64]) {
    let mut buffer = [0u8; 4096];
    let mut words = Output::new(&mut buffer, 0);
    summary::put_end(&mut words, state, counts, tally);
    let end = words.at;
    stream::say(rt, words.buffer, end);
}

// What the words of the command line ask.
fn ask(rt: &HostRuntime) -> Asked {
    let mut asked = decoding::nothing_asked();
    for i in 1..inputs::arg_count(rt) {
        asked = ask_by(rt, asked, i);
    }
    asked
}

// One word more.
fn ask_by(rt: &HostRuntime, asked: Asked, i: usize) -> Asked {
    let mut word = [0u8; 4096];
    decoding::asked_by(asked, inputs::arg(rt, i, &mut word), i)
}

// What is asked, done. Answers the status.
fn answer(rt: &HostRuntime, asked: Asked) -> Status {
    if asked.help {
        return help(rt);
    }
    if let Some(i) = asked.unknown {
        inputs::say_unknown(&at_start(rt), i);
        return Status::Wrong;
    }
    if !inputs::are_readable(&at_start(rt)) {
        return Status::Wrong;
    }
    answer_inputs(rt, asked)
}

// The usage. Answers the status.
fn help(rt: &HostRuntime) -> Status {
    inputs::put_usage(
        rt,
        b"usage: decode [--quiet] [--summary] [FILE..]\n\
      Reads AIS lines from the files in turn, or from standard input where none is named or the name is -,\n\
      and writes a JSON object for each complete message and each refused line, one to a line.\n  \
      --quiet    no objects for refused lines\n  \
      --summary  at the end, counts by type and by refusal on standard error\n  \
      --help     this text\n",
    )
}

fn main(rt: HostRuntime) {
    let asked = ask(&rt);
    let status = answer(&rt, asked);
    if asked.status {
        inputs::tell_status(&rt, u8::from(status));
    }
}
