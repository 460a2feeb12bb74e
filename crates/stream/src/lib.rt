// Input line by line and output in large pieces, for every program that answers the lines it is given. What the system's calls do is assumed; what is
// taken out of a block, what a read leaves as it was and what is said of a call that failed are promised, and over a reader and a writer whose bytes are
// known, as in a test, which bytes are read and written.
#![tactic(auto)]

mod pause;

ghost use Rattle.std.specs.Prelude.{◌≡◌, ◌<◌, leb, length, take, OnOk, Ok};
ghost use Rattle.std.specs.Io.{WritesAtMost};
ghost use Rattle.std.specs.Io.KnownBytes.{Appends, Consumes, IsAtEnd, WriteAppends};
ghost use Rattle.lines.specs.Collect.{next_of};
ghost use Rattle.text_out.specs.Output.{Puts};
ghost use Rattle.stream.specs.Next.{at_start, next_by, taken_with, in_block, at_end, comes_of};
ghost use Rattle.stream.specs.Moves.{Fills, Brings, Takes, Told, failure_text};

use lines::{Collector, Event};
use std::fmt::InlineText;
use std::io::{Error, ErrorKind, Read, Result, Write};
use std::rt::Clock;
use text_out::Output;

// How far the input was taken: how many bytes are held of a line that is not yet ended, the place in the block to go on from, and how many bytes the
// block has.
#[derive(Clone, Copy)]
pub struct Input {
    pub held: usize,
    pub from: usize,
    pub filled: usize,
}

// What comes next: a line, whose bytes stand first in the line's buffer; one that is too long; nothing until the block is read anew; or the line's
// buffer is too short.
#[derive(Clone, Copy)]
pub enum Next {
    Line(usize),
    TooLong,
    Nothing,
    Room,
}

// What a call gives back.
#[derive(Clone, Copy)]
pub struct Taken {
    pub input: Input,
    pub next: Next,
}

// Why reading on failed: a call to read, or to write, with the system's reason.
#[derive(Clone, Copy)]
pub enum Failure {
    Unread(Error),
    Unwritten(Error),
}

// Before anything is read.
pub fn start() -> Input
    ensures { result ≡ at_start }
{
    Input {
        held: 0,
        from: 0,
        filled: 0,
    }
}

// What comes of the input: at its end what is held, as a last line; else the next line that ends in the block. A line has at most `most` bytes, and one CR
// before its LF is removed or kept.
pub fn take_line(
    input: Input,
    ended: bool,
    most: u16,
    strip: bool,
    block: &[u8],
    line: &mut [u8],
) -> Taken
    ensures { taken_with result line.new ≡ comes_of ended most strip input block.now line.old }
{
    if ended {
        return last_line(input, most, strip, line);
    }
    next_line(input, most, strip, block, line)
}

// The next line that ends in the block.
fn next_line(input: Input, most: u16, strip: bool, block: &[u8], line: &mut [u8]) -> Taken
    ensures { taken_with result line.new ≡ in_block most strip input block.now line.old }
{
    let n = text_out::up_to(input.filled, block);
    let held = Collector { len: input.held };
    let c = lines::collect_to(held, most, strip, &block[..n], input.from, line);
    Taken {
        input: Input {
            held: c.state.len,
            from: next_from(c.event, n),
            filled: n,
        },
        next: next_by(c.event),
    }
}

// At the end of the input: bytes that are held are a last line.
fn last_line(input: Input, most: u16, strip: bool, line: &[u8]) -> Taken
    ensures { result ≡ at_end most strip input line.now }
{
    let event = lines::last(Collector { len: input.held }, most, strip, line);
    Taken {
        input: start(),
        next: next_by(event),
    }
}

// What an event of a collector is to a program.
fn next_by(event: Event) -> Next
    ensures { result ≡ next_by event }
{
    match event {
        Event::Line(n, _) => Next::Line(n),
        Event::TooLong(_) => Next::TooLong,
        Event::Held => Next::Nothing,
        Event::Room => Next::Room,
    }
}

// The place to go on from after an event, in a block of so many bytes.
fn next_from(event: Event, all: usize) -> usize
    ensures { result ≡ next_of event all }
{
    match event {
        Event::Line(_, next) | Event::TooLong(next) => next,
        Event::Held | Event::Room => all,
    }
}

// Goes on where no line ends in what is left of the block, and answers how many bytes were read: 0 at the end of the input. The first `used` bytes of the
// output buffer are written before anything is waited for, so that whoever looks sees all that was told; then the block is read anew from `from`. What is
// held is kept.
pub fn read_on<C: Clock, R: Read, W: Write>(
    clock: &C,
    input: &mut Input,
    from: &mut R,
    block: &mut [u8],
    to: &mut W,
    out: &[u8],
    used: usize,
) -> std::result::Result<usize, Failure>
    ensures fills { Fills input.old input.new result block.new }
    ensures read { Consumes (R.remaining from.old) (R.remaining from.new) (take input.new.filled block.new) }
    ensures end { result ≡ Ok 0 → 0 < length block.new → IsAtEnd (R.remaining from.new) }
    ensures written { Told result (Appends (W.contents to.old) (W.contents to.new) (take used out.now)) }
{
    input.from = 0;
    input.filled = 0;
    write_out(clock, to, out, used).map_err(Failure::Unwritten)?;
    let n = read_some(clock, from, block).map_err(Failure::Unread)?;
    input.filled = n;
    Ok(n)
}

// Reads once, and again where a call was interrupted or would have had to wait. 0 bytes are the end of the input.
fn read_some<C: Clock, R: Read>(clock: &C, from: &mut R, block: &mut [u8]) -> Result<usize>
    ensures brings { Brings result block.new }
    ensures bytes { Takes result (R.remaining from.old) (R.remaining from.new) block.new }
{
    for _ in 0..u64::MAX {
        match from.read(block) {
            Ok(n) => return Ok(n),
            Err(error) => {
                if !is_for_again(clock, error) {
                    return Err(error);
                }
            }
        }
    }
    Err(Error::from(ErrorKind::TimedOut))
}

// Whether the call that just failed is to be tried again: a signal interrupted it, or it would have had to wait, and a while has passed.
fn is_for_again(clock: &impl Clock, error: Error) -> bool {
    let kind = error.kind();
    if kind == ErrorKind::WouldBlock {
        pause::pause(clock);
        return true;
    }
    kind == ErrorKind::Interrupted
}

// Whether so much of an output buffer of 65,536 bytes is in use that it is written before more is put.
pub fn is_full(used: usize) -> bool
    ensures { result ≡ leb 49152 used }
{
    49152 <= used
}

// Writes the first `used` bytes of the output buffer, and answers why not all of them were taken where that is so.
pub fn write_out<C: Clock, W: Write>(clock: &C, to: &mut W, out: &[u8], used: usize) -> Result<()>
    ensures { OnOk result (Appends (W.contents to.old) (W.contents to.new) (take used out.now)) }
{
    let n = text_out::up_to(used, out);
    write_all(clock, to, &out[..n])?;
    to.flush()
}

// Writes all of the bytes, again where a call was interrupted or would have had to wait, until one fails.
fn write_all<C: Clock, W: Write>(clock: &C, to: &mut W, bytes: &[u8]) -> Result<()>
    ensures { OnOk result (Appends (W.contents to.old) (W.contents to.new) bytes.now) }
{
    let mut done = 0;
    for _ in 0..u64::MAX {
        if done == bytes.len() {
            return Ok(());
        }
        match write_some(to, &bytes[done..]) {
            Ok(0) => return Err(Error::from(ErrorKind::WriteZero)),
            Ok(put) => done += put,
            Err(error) => {
                if !is_for_again(clock, error) {
                    return Err(error);
                }
            }
        }
    }
    Err(Error::from(ErrorKind::TimedOut))
}

// Writes once, and answers how many bytes were taken, or why the call failed.
fn write_some<W: Write>(to: &mut W, bytes: &[u8]) -> Result<usize>
    ensures bound { WritesAtMost result bytes.now }
    ensures bytes { WriteAppends (W.contents to.old) (W.contents to.new) result bytes.now }
{
    to.write(bytes)
}

// Who tells what failed: the program, by its name, and after which line of its input.
#[derive(Clone, Copy)]
pub struct Teller<'a> {
    pub rt: &'a HostRuntime,
    pub program: &'a [u8],
    pub number: u64,
}

// Says on standard error that a call failed: the program, after which line of the input, what it did and with what, and the system's reason.
pub fn say_failure(teller: &Teller, doing: &[u8], name: &[u8], error: Error) {
    let mut buffer = [0u8; 4096];
    let mut words = Output::new(&mut buffer, 0);
    put_failure(&mut words, teller.program, teller.number, doing, name);
    let end = words.at;
    fail(teller.rt, words.buffer, end, error);
}

// The words before the system's reason.
pub fn put_failure(out: &mut Output, program: &[u8], number: u64, doing: &[u8], name: &[u8])
    ensures { Puts out.old out.new (failure_text program.now number doing.now name.now) }
{
    out.put_bytes(program);
    out.put_bytes(b": after input line ");
    out.put_decimal(number);
    out.put_bytes(b", ");
    out.put_bytes(doing);
    out.put_byte(b' ');
    out.put_bytes(name);
}

// Says on standard error what failed, the first `used` bytes of `words`, then a colon and the system's reason.
pub fn fail(rt: &HostRuntime, words: &[u8], used: usize, error: Error) {
    let told = InlineText::<256>::of(error);
    let reason = reason_of(told.as_str()).as_bytes();
    say(rt, words, used);
    say(rt, b": ", 2);
    say(rt, reason, reason.len());
    say(rt, b"\n", 1);
}

// The system's reason alone, without the number that std puts after it.
fn reason_of(told: &str) -> &str {
    match told.split_once(" (os error ") {
        Some((reason, _)) => reason,
        None => told,
    }
}

// Says the first `used` bytes of a buffer on standard error. Where that fails there is nobody left to tell.
pub fn say(rt: &HostRuntime, words: &[u8], used: usize) {
    let _ = write_out(rt, &mut rt.stderr(), words, used);
}
