// The inputs of every program: the words of its command line and the files that they name in turn, what is done between two lines, and the status that
// the launcher is told. What the system's calls do is assumed.
#![tactic(auto)]

ghost use Rattle.std.specs.Prelude.{◌≡◌, length};
ghost use Rattle.std.specs.Io.{ReadsAtMost};
ghost use Rattle.text_out.specs.Output.{Puts};
ghost use Rattle.inputs.specs.Words.{IsPrefixLen, word_of, is_input, unknown_text, named_text};
ghost use Rattle.inputs.specs.Goes.{is_on, is_last, source_of, Opens, Empties, Reads, ReadsOn, Goes, status_number, IsOfARun, Finishes};

use std::env::FillError;
use std::fs;
use std::fs::{File, OpenOptions};
use std::io::{Error, Read, Result, Stdin};
use std::rt::Env;
use stream::{Failure, Input, Next, Teller};
use text_out::Output;

// What a word asks: the usage; that the launcher is told the status; an option of the program's own; or an input, a file by its name or `-`.
#[derive(Clone, Copy)]
pub enum Word {
    Help,
    Status,
    Option,
    Input,
}

// How a program ended: all went well, a call failed, or a word of its command line was wrong.
#[derive(Clone, Copy)]
pub enum Status {
    Well,
    Failed,
    Wrong,
}

impl From<Status> for u8 {
    ghost from_gives = { λ status n. n ≡ status_number status };

    // The number of a status, as the launcher is told it.
    fn from(status: Status) -> u8 {
        match status {
            Status::Well => 0,
            Status::Failed => 1,
            Status::Wrong => 2,
        }
    }
}

// The descriptor that the launcher reads the status from, by its name in the system's files.
const STATUS_FILE: &str = "/proc/self/fd/3";

// The system's numbers of the reasons that are told of a word without a call: a descriptor that is closed, a name that is too long, and one that is no
// text, which std cannot open.
const EBADF: i32 = 9;

const ENAMETOOLONG: i32 = 36;

const EILSEQ: i32 = 84;

// What a word is.
pub fn word_of(word: &[u8]) -> Word
    ensures { result ≡ word_of word.now }
{
    if word == b"--help".as_slice() {
        return Word::Help;
    }
    if word == b"--status".as_slice() {
        return Word::Status;
    }
    if is_input(word) {
        return Word::Input;
    }
    Word::Option
}

// Whether a word names an input: it does not start with `-`, or it is `-`, which is standard input.
fn is_input(word: &[u8]) -> bool
    ensures { result ≡ is_input word.now }
{
    if word.len() < 2 {
        return true;
    }
    word[0] != b'-'
}

// How many words the command line has, with the program's own name.
pub fn arg_count(rt: &HostRuntime) -> usize {
    for i in 0..usize::MAX {
        if is_past_end(rt, i) {
            return i;
        }
    }
    usize::MAX
}

// Whether the command line has no word at a place.
fn is_past_end(rt: &HostRuntime, place: usize) -> bool {
    match rt.arg(place, &mut []) {
        Ok(_) => false,
        Err(FillError::NotPresent) => true,
        Err(FillError::TooLong) => false,
    }
}

// The word at a place of the command line, put first in `word`: none of it where there is none, or it is longer than `word`.
pub fn arg<'a>(rt: &HostRuntime, place: usize, word: &'a mut [u8]) -> &'a [u8]
    ensures { IsPrefixLen (length result.now) word.old }
{
    let n = rt.arg(place, word).unwrap_or(0);
    &word[..n]
}

// The usage, on standard output. Answers the status.
pub fn put_usage(rt: &HostRuntime, text: &[u8]) -> Status
    ensures { IsOfARun result }
{
    if stream::write_out(rt, &mut rt.stdout(), text, text.len()).is_ok() {
        Status::Well
    } else {
        Status::Failed
    }
}

// Whether argument i, where it names a file, can be read. Where it cannot, the system's reason is said on standard error.
fn is_readable(teller: &Teller, i: usize) -> bool {
    let mut path = [0u8; 4096];
    match teller.rt.arg(i, &mut path) {
        Ok(n) => is_word_readable(teller, &path[..n]),
        Err(_) => {
            say_name(teller, &path, Error::from_raw_os_error(ENAMETOOLONG));
            false
        }
    }
}

// Whether a word, where it names a file, can be read.
fn is_word_readable(teller: &Teller, word: &[u8]) -> bool {
    if !is_file(word) {
        return true;
    }
    match may_read(teller.rt, word) {
        Ok(()) => true,
        Err(error) => {
            say_name(teller, word, error);
            false
        }
    }
}

// Whether a word names a file.
fn is_file(word: &[u8]) -> bool {
    word != b"-".as_slice() && is_input(word)
}

// Whether a word is the name of a file that may be read, or why it is not. A file or a folder is opened for that, and closed; another, as a pipe or a
// device, is not: who writes into it would take its closing for the end.
fn may_read(rt: &HostRuntime, word: &[u8]) -> Result<()> {
    let path = path_of(word)?;
    let found = fs::metadata(rt, path)?;
    if found.is_file() || found.is_dir() {
        let _ = File::open(rt, path)?;
    }
    Ok(())
}

// A word as a path: std opens names that are text.
fn path_of(word: &[u8]) -> Result<&str> {
    str::from_utf8(word).map_err(|_| Error::from_raw_os_error(EILSEQ))
}

// What an input is read from: standard input; a file; or nothing, where none could be opened or it was closed.
#[derive(Drop)]
pub enum Origin {
    Standard(Stdin),
    Named(File),
    Closed,
}

impl Read for &Origin {
    fn read(&mut self, buf: &mut [u8]) -> Result<usize> {
        read_origin(self, buf)
    }
}

// Reads once from what an input is read from.
fn read_origin(from: &Origin, buf: &mut [u8]) -> Result<usize>
    ensures { ReadsAtMost result buf.new }
{
    match from {
        Origin::Standard(stdin) => read_standard(*stdin, buf),
        Origin::Named(file) => read_file(file, buf),
        Origin::Closed => Err(Error::from_raw_os_error(EBADF)),
    }
}

// Reads once from standard input.
fn read_standard(stdin: Stdin, buf: &mut [u8]) -> Result<usize>
    ensures { ReadsAtMost result buf.new }
{
    let mut from = stdin;
    from.read(buf)
}

// Reads once from a file, which stays the same value.
fn read_file(file: &File, buf: &mut [u8]) -> Result<usize>
    ensures { ReadsAtMost result buf.new }
{
    let mut from = file;
    from.read(buf)
}

// Where lines come from: how far the input was taken, what it is read from, and the place of the word that names it, which is none for standard input where
// no word names an input.
#[derive(Drop)]
pub struct Source {
    pub input: Input,
    pub from: Origin,
    pub place: Option<usize>,
}

// How far a run is: on its way; at the end of an input, of which what is held is the last line; at the end of all; stopped by an input that could not be
// opened or read; or by a write that failed, after which nothing more is written. Whichever failed was said.
#[derive(Clone, Copy)]
pub enum Way {
    On,
    Last,
    Ended,
    Stopped,
    Failed,
}

// What is given back between two lines: the source, how much of the output buffer is still in use, and how far the run is.
#[derive(Drop)]
pub struct Gone {
    pub source: Source,
    pub used: usize,
    pub way: Way,
}

// A source whose input was taken so far.
pub fn taken(source: Source, input: Input) -> Source
    ensures { result ≡ source_of input source.from source.place }
{
    Source {
        input,
        from: source.from,
        place: source.place,
    }
}

// The first input: that of the first word that names one, or standard input where none does.
pub fn first_input(teller: &Teller, named: bool) -> Gone
    ensures { Opens 0 result }
{
    if named {
        return input_from(teller, 1, 0);
    }
    begun(Origin::Standard(teller.rt.stdin()), None, 0, Way::On)
}

// The next input, where a word names one more; the one before is closed.
fn next_input(teller: &Teller, source: Source, used: usize) -> Gone
    ensures { Opens used result }
{
    let Some(place) = source.place else {
        return begun(source.from, None, used, Way::Ended);
    };
    drop(source);
    input_from(teller, place.saturating_add(1), used)
}

// The input of the first word from a place on that names one.
fn input_from(teller: &Teller, from: usize, used: usize) -> Gone
    ensures { Opens used result }
{
    let named = named_from(teller.rt, from);
    let Some(place) = named else {
        return begun(Origin::Closed, None, used, Way::Ended);
    };
    let mut name = [0u8; 4096];
    let word = arg(teller.rt, place, &mut name);
    match open(teller.rt, place, word) {
        Ok(opened) => begun(opened, named, used, Way::On),
        Err(error) => {
            stream::say_failure(teller, b"opening", word, error);
            begun(Origin::Closed, named, used, Way::Stopped)
        }
    }
}

// A run at the start of an input, on its way or not.
fn begun(from: Origin, place: Option<usize>, used: usize, way: Way) -> Gone
    ensures { Opens used result }
{
    let source = Source {
        input: stream::start(),
        from,
        place,
    };
    Gone { source, used, way }
}

// The place of the first word from a place on that names an input. It is sought word by word: all words counted for every input would cost their square.
fn named_from(rt: &HostRuntime, from: usize) -> Option<usize> {
    (from..usize::MAX)
        .take_while(|&i| !is_past_end(rt, i))
        .find(|&i| is_named(rt, i))
}

// Whether the word at a place names an input.
fn is_named(rt: &HostRuntime, place: usize) -> bool {
    let mut word = [0u8; 4096];
    is_input(arg(rt, place, &mut word))
}

// The name of the input of a place, which is put first in `name` where it is a word.
fn name_of<'a>(rt: &HostRuntime, place: Option<usize>, name: &'a mut [u8]) -> &'a [u8] {
    match place {
        Some(place) => arg(rt, place, name),
        None => b"standard input",
    }
}

// What the input is read from that the word at a place names, or why it cannot be opened. Standard input is closed after its end, so that only the first
// word that names it can read it.
fn open(rt: &HostRuntime, place: usize, word: &[u8]) -> Result<Origin> {
    if word != b"-".as_slice() {
        return Ok(Origin::Named(File::open(rt, path_of(word)?)?));
    }
    if is_read_before(rt, place) {
        return Ok(Origin::Closed);
    }
    Ok(Origin::Standard(rt.stdin()))
}

// Whether a word before a place names standard input.
fn is_read_before(rt: &HostRuntime, place: usize) -> bool {
    (1..place).any(|i| is_standard(rt, i))
}

// Whether the word at a place names standard input.
fn is_standard(rt: &HostRuntime, place: usize) -> bool {
    let mut word = [0u8; 4096];
    arg(rt, place, &mut word) == b"-".as_slice()
}

// After a line the output buffer is written where it is nearly full; where no line came, it is written and the block is read anew. After the last line of
// an input comes the next input.
pub fn go_on(
    teller: &Teller,
    source: Source,
    ended: bool,
    next: Next,
    used: usize,
    block: &mut [u8],
    out: &[u8],
) -> Gone
    ensures { Goes ended source next used result block.new }
{
    if ended {
        return next_input(teller, source, used);
    }
    match next {
        Next::Line(_) => write_full(teller, source, used, out),
        Next::TooLong => write_full(teller, source, used, out),
        Next::Nothing => read_on(teller, source, used, block, out),
        Next::Room => {
            say_room(teller, source.place);
            Gone {
                source,
                used,
                way: Way::Stopped,
            }
        }
    }
}

// Writes the output buffer where it is nearly full.
fn write_full(teller: &Teller, source: Source, used: usize, out: &[u8]) -> Gone
    ensures { Empties source used result }
{
    if !stream::is_full(used) {
        return Gone {
            source,
            used,
            way: Way::On,
        };
    }
    if write_out(teller, out, used) {
        return Gone {
            source,
            used: 0,
            way: Way::On,
        };
    }
    Gone {
        source,
        used,
        way: Way::Failed,
    }
}

// Writes what is in use of the output buffer, and says where that fails.
fn write_out(teller: &Teller, out: &[u8], used: usize) -> bool {
    match stream::write_out(teller.rt, &mut teller.rt.stdout(), out, used) {
        Ok(()) => true,
        Err(error) => {
            say_unwritten(teller, error);
            false
        }
    }
}

// Says on standard error that standard output could not be written.
fn say_unwritten(teller: &Teller, error: Error) {
    stream::say_failure(teller, b"writing", b"standard output", error);
}

// Writes the output buffer, so that all that was told is seen before anything is waited for, and reads the block anew.
fn read_on(teller: &Teller, source: Source, used: usize, block: &mut [u8], out: &[u8]) -> Gone
    ensures { Reads source used result block.new }
{
    let mut source = source;
    match read_from(teller.rt, &mut source, used, block, out) {
        Ok(0) => Gone {
            source,
            used: 0,
            way: Way::Last,
        },
        Ok(_) => Gone {
            source,
            used: 0,
            way: Way::On,
        },
        Err(Failure::Unread(error)) => {
            say_unread(teller, source.place, error);
            Gone {
                source,
                used: 0,
                way: Way::Stopped,
            }
        }
        Err(Failure::Unwritten(error)) => {
            say_unwritten(teller, error);
            Gone {
                source,
                used,
                way: Way::Failed,
            }
        }
    }
}

// Writes the output buffer to standard output and reads the block anew from a source.
fn read_from(
    rt: &HostRuntime,
    source: &mut Source,
    used: usize,
    block: &mut [u8],
    out: &[u8],
) -> std::result::Result<usize, Failure>
    ensures { ReadsOn source.old source.new result block.new }
{
    let mut from = &source.from;
    stream::read_on(
        rt,
        &mut source.input,
        &mut from,
        block,
        &mut rt.stdout(),
        out,
        used,
    )
}

// Says on standard error that the input of a place could not be read.
fn say_unread(teller: &Teller, place: Option<usize>, error: Error) {
    let mut name = [0u8; 4096];
    stream::say_failure(
        teller,
        b"reading",
        name_of(teller.rt, place, &mut name),
        error,
    );
}

// Says on standard error that a program lent too short a buffer for a line.
fn say_room(teller: &Teller, place: Option<usize>) {
    let mut name = [0u8; 4096];
    stream::say_failure(
        teller,
        b"a line's buffer is too short for",
        name_of(teller.rt, place, &mut name),
        Error::from_raw_os_error(0),
    );
}

// At the end of a run: what was told and is not written yet is written. Answers the status.
pub fn finish(teller: &Teller, way: Way, out: &[u8], used: usize) -> Status
    ensures { Finishes way result }
{
    match way {
        Way::On | Way::Last | Way::Failed => Status::Failed,
        Way::Stopped => {
            write_out(teller, out, used);
            Status::Failed
        }
        Way::Ended => {
            if write_out(teller, out, used) {
                Status::Well
            } else {
                Status::Failed
            }
        }
    }
}

// Whether a run goes on.
pub fn is_on(way: Way) -> bool
    ensures { result ≡ is_on way }
{
    matches!(way, Way::On | Way::Last)
}

// Whether a run is at the end of an input, of which what is held is the last line.
pub fn is_last(way: Way) -> bool
    ensures { result ≡ is_last way }
{
    matches!(way, Way::Last)
}

// Whether every file that the words name can be read; the first that cannot is said.
pub fn are_readable(teller: &Teller) -> bool {
    (1..arg_count(teller.rt)).all(|i| is_readable(teller, i))
}

// Says on standard error that argument i is no option of the program's.
pub fn say_unknown(teller: &Teller, i: usize) {
    let mut name = [0u8; 4096];
    let word = arg(teller.rt, i, &mut name);
    let mut buffer = [0u8; 4352];
    let mut words = Output::new(&mut buffer, 0);
    put_unknown(&mut words, teller.program, word);
    let end = words.at;
    stream::say(teller.rt, words.buffer, end);
}

// The words of it.
pub fn put_unknown(out: &mut Output, program: &[u8], name: &[u8])
    ensures { Puts out.old out.new (unknown_text program.now name.now) }
{
    out.put_bytes(program);
    out.put_bytes(b": unknown option: ");
    out.put_bytes(name);
    out.put_bytes(b" (--help lists them)\n");
}

// Says on standard error the system's reason why a file cannot be read.
fn say_name(teller: &Teller, name: &[u8], error: Error) {
    let mut buffer = [0u8; 4352];
    let mut words = Output::new(&mut buffer, 0);
    put_name(&mut words, teller.program, name);
    let end = words.at;
    stream::fail(teller.rt, words.buffer, end, error);
}

// The words before the system's reason.
pub fn put_name(out: &mut Output, program: &[u8], name: &[u8])
    ensures { Puts out.old out.new (named_text program.now name.now) }
{
    out.put_bytes(program);
    out.put_bytes(b": ");
    out.put_bytes(name);
}

// Tells the launcher the status that the program cannot end with itself, by its number.
pub fn tell_status(rt: &HostRuntime, status: u8) {
    let digit = [b'0' + status % 10, b'\n'];
    if let Ok(told) = OpenOptions::new().append(true).open(rt, STATUS_FILE) {
        let mut to = told;
        let _ = stream::write_out(rt, &mut to, &digit, digit.len());
    }
}
