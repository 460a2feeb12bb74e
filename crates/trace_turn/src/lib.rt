// Program `trace` but for the system's calls: its turn, in which a command line is taken out of the block and answered with one line.
#![tactic(auto)]

ghost use Rattle.std.specs.Prelude.{◌≡◌, take};
ghost use Rattle.text_out.specs.Output.{Puts};
ghost use Rattle.trace_turn.specs.Turn.{replied_at, command_of, long_text, replied_of, turn_in, turn_of};

use reassembly::Record;
use stream::{Input, Next};
use text_out::Output;

// A command line has at most so many bytes. A CR before the LF is one of them: no command has one.
const MOST: u16 = 8192;

// The record after a turn, and the place after what was said.
#[derive(Clone, Copy)]
pub struct Answered {
    pub state: Record,
    pub at: usize,
}

// What a turn gives back: how far the input was taken, what came, the record, and the place after what was said.
#[derive(Clone, Copy)]
pub struct Turned {
    pub input: Input,
    pub next: Next,
    pub answered: Answered,
}

// The next command line that ends in the block, or at the end of the input what is held, answered.
// As `decoding::turn` over lines: one function for both would take what is done with a line as a closure over the lent buffers, and read no plainer.
pub fn turn(
    input: Input,
    ended: bool,
    state: Record,
    used: usize,
    block: &[u8],
    line: &mut [u8],
    out: &mut [u8],
) -> Turned
    ensures { turn_in result line.new out.new
        ≡ turn_of input ended state used block.now line.old out.old }
{
    let t = stream::take_line(input, ended, MOST, false, block, line);
    let mut said = Output::new(out, used);
    let state = answer_next(state, t.next, line, &mut said);
    Turned {
        input: t.input,
        next: t.next,
        answered: Answered { state, at: said.at },
    }
}

// What came is answered: a line that is too long is no command.
fn answer_next(state: Record, next: Next, line: &[u8], out: &mut Output) -> Record
    ensures same { out.new.buffer.ghost_name ≡ out.old.buffer.ghost_name }
    ensures is { replied_at result out.new ≡ replied_of state out.old.at next line.now out.old.buffer.now }
{
    match next {
        Next::Line(n) => answer_line(state, line, n, out),
        Next::TooLong => {
            answer_long(out);
            state
        }
        Next::Nothing | Next::Room => state,
    }
}

// A line: its answer, and an LF.
fn answer_line(state: Record, line: &[u8], n: usize, out: &mut Output) -> Record
    ensures same { out.new.buffer.ghost_name ≡ out.old.buffer.ghost_name }
    ensures is { replied_at result out.new ≡ command_of state out.old.at (take n line.now) out.old.buffer.now }
{
    let k = text_out::up_to(n, line);
    let after = trace_protocol::answer(state, &line[..k], out);
    out.put_byte(b'\n');
    after
}

// A line that is too long.
fn answer_long(out: &mut Output)
    ensures { Puts out.old out.new long_text }
{
    trace_commands::say_bad(out);
    out.put_byte(b'\n');
}
