// Lines out of blocks of input that were cut anywhere. A collector is a number; the blocks and the line's buffer are lent.
#![tactic(auto)]

pub mod texts;

ghost use Rattle.std.specs.Prelude.{◌≡◌, ◌==◌, [], ◌∷◌, ◌++◌, drop, position};
ghost use Rattle.lines.specs.Lines.{ends_in_cr, line_len};
ghost use Rattle.lines.specs.Held.{Within, kept_of, held_of};
ghost use Rattle.lines.specs.Collect.{event_of, collect_of, last_of, collected_in};

// How many bytes of the line that is not yet ended are held. One more than the most: all of them, and then a CR. Above that: it is too long already.
#[derive(Clone, Copy)]
pub struct Collector {
    pub len: usize,
}

// What a block brought: a line, whose bytes stand first in the buffer, or one that is too long, each with the place in the block to go on from;
// or the block is used up and its last bytes are held; or the buffer is too short.
#[derive(Clone, Copy)]
pub enum Event {
    Line(usize, usize),
    TooLong(usize),
    Held,
    Room,
}

// What a call gives back.
#[derive(Clone, Copy)]
pub struct Collected {
    pub state: Collector,
    pub event: Event,
}

// A new collector is empty.
pub fn new() -> Collector
    ensures { result.len ≡ 0 }
{
    Collector { len: 0 }
}

// The first event of the block from the place `from` on, for lines of at most `most` bytes, one CR before the LF removed or kept.
pub fn collect_to(
    state: Collector,
    most: u16,
    strip: bool,
    block: &[u8],
    from: usize,
    line: &mut [u8],
) -> Collected
    ensures { collected_in result line.new ≡ collect_of most strip state.len block.now from line.old }
{
    let m = most as usize;
    if line.len() < m {
        return Collected {
            state,
            event: Event::Room,
        };
    }
    let len = state.len.min(m + 2);
    let rest = rest_of(block, from);
    match lf_in(rest) {
        Some(n) => {
            let held = hold(len, m, &rest[..n], line);
            Collected {
                state: Collector { len: 0 },
                event: ended(held, m, strip, line, from + n + 1),
            }
        }
        None => Collected {
            state: Collector {
                len: hold(len, m, rest, line),
            },
            event: Event::Held,
        },
    }
}

// At the end of the input: the bytes that are held are a last line, if there are any. The place to go on from is 0.
pub fn last(state: Collector, most: u16, strip: bool, line: &[u8]) -> Event
    ensures { result ≡ last_of most strip state.len line.now }
{
    let m = most as usize;
    if line.len() < m {
        return Event::Room;
    }
    if state.len == 0 {
        return Event::Held;
    }
    ended(state.len.min(m + 2), m, strip, line, 0)
}

// The bytes of a block from a place on: none past its end.
fn rest_of(block: &[u8], from: usize) -> &[u8]
    ensures { result.now ≡ drop from block.now }
{
    &block[from.min(block.len())..]
}

// The place of the first LF.
fn lf_in(bytes: &[u8]) -> Option<usize>
    ensures { result ≡ position (λ b. b == 10) bytes.now }
{
    bytes.iter().position(|&b| b == b'\n')
}

// More bytes of the line. `Within` is a clause of each inner function: a struct of all three would borrow the buffer mutably here and shared in `ended`, so
// that two types would carry it.
fn hold(len: usize, most: usize, bytes: &[u8], line: &mut [u8]) -> usize
    requires { Within most len line.old }
    ensures { record { len = result; line = line.new } ≡ kept_of most (held_of most len line.old ++ bytes.now) line.old }
{
    let mut n = len;
    for &b in bytes {
        n = push(n, most, b, line);
    }
    n
}

// One byte more of the line: it is stored while there is room.
fn push(len: usize, most: usize, b: u8, line: &mut [u8]) -> usize
    requires { Within most len line.old }
    ensures { record { len = result; line = line.new } ≡ kept_of most (held_of most len line.old ++ b ∷ []) line.old }
{
    if len < most {
        line[len] = b;
        return len + 1;
    }
    if len == most {
        if b == 13 {
            return most + 1;
        }
    }
    most + 2
}

// The line that is held, ended by an LF before the place `next`.
fn ended(len: usize, most: usize, strip: bool, line: &[u8], next: usize) -> Event
    requires { Within most len line.now }
    ensures { result ≡ event_of most strip (held_of most len line.now) next }
{
    let n = line_len(len, most, strip, line);
    if n <= most {
        Event::Line(n, next)
    } else {
        Event::TooLong(next)
    }
}

// The length of the line that is held, with a CR at its end removed if that is asked.
fn line_len(len: usize, most: usize, strip: bool, line: &[u8]) -> usize
    requires { Within most len line.now }
    ensures { result ≡ line_len strip (held_of most len line.now) }
{
    if strip {
        if ends_in_cr(len, most, line) {
            return len - 1;
        }
    }
    len
}

// Whether the last byte that is held is a CR.
fn ends_in_cr(len: usize, most: usize, line: &[u8]) -> bool
    requires { Within most len line.now }
    ensures { result ≡ ends_in_cr (held_of most len line.now) }
{
    if len == 0 {
        return false;
    }
    if most < len {
        return len == most + 1;
    }
    line[len - 1] == 13
}
