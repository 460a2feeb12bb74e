// What a command of the comparing protocol asks: the words of its line, read as numbers; and what is said to a line that is no command.
#![tactic(auto)]

pub mod words;

ghost use Rattle.std.specs.Prelude.{◌≡◌};
ghost use Rattle.trace_commands.specs.Line.{word_at};
ghost use Rattle.trace_commands.specs.Asked.{unarmor_asked, read_asked, id_asked, lend_asked, bad};
ghost use Rattle.text_out.specs.Output.{Puts};

use answer::Decode;
use reassembly::Record;
use text_out::Output;

// FILL and ROOM of `unarmor`.
#[derive(Clone, Copy)]
pub struct Unarmor {
    pub fill: u64,
    pub room: u64,
}

// DECODE, ROOM and BITROOM of `read`.
#[derive(Clone, Copy)]
pub struct Read {
    pub decode: Decode,
    pub room: u64,
    pub bit_room: u64,
}

// ID, FRAGMENT and LENGTH of `lend`.
#[derive(Clone, Copy)]
pub struct Lend {
    pub number: Option<u8>,
    pub fragment: u8,
    pub len: u64,
}

// The numbers of `unarmor FILL ROOM DATA`.
#[tactic(auto, unfolding(crate::specs::Asked::unarmor_asked))]
pub fn ask_unarmor(line: &[u8]) -> Option<Unarmor>
    ensures { result ≡ unarmor_asked line.now }
{
    if words::count(line) != 4 {
        return None;
    }
    let fill = words::decimal(line, 1)?;
    let room = words::decimal(line, 2)?;
    if room > 1024 {
        return None;
    }
    Some(Unarmor { fill, room })
}

// The numbers of `read DECODE ROOM BITROOM LINE`.
#[tactic(auto, unfolding(crate::specs::Asked::read_asked))]
pub fn ask_read(line: &[u8]) -> Option<Read>
    ensures { result ≡ read_asked line.now }
{
    if words::count(line) != 5 {
        return None;
    }
    let decode = words::decimal(line, 1)?;
    let room = words::decimal(line, 2)?;
    let bit_room = words::decimal(line, 3)?;
    if decode > 1 || room > 1024 || bit_room > 1024 {
        return None;
    }
    Some(Read {
        decode: answer::decode_of(decode == 1),
        room,
        bit_room,
    })
}

// The numbers of `lend ID FRAGMENT LENGTH BYTES`.
#[tactic(auto, unfolding(crate::specs::Asked::lend_asked))]
pub fn ask_lend(line: &[u8]) -> Option<Lend>
    ensures { result ≡ lend_asked line.now }
{
    if words::count(line) != 5 {
        return None;
    }
    let number = ask_id(line, 1)?;
    let fragment = words::decimal(line, 2)?;
    let len = words::decimal(line, 3)?;
    let fragment = u8::try_from(fragment).ok()?;
    Some(Lend {
        number,
        fragment,
        len,
    })
}

// Word k as a message number: one of 8 bits, or `-` for none.
#[tactic(auto, unfolding(crate::specs::Asked::id_asked))]
fn ask_id(line: &[u8], k: usize) -> Option<Option<u8>>
    ensures { result ≡ id_asked (word_at k line.now) }
{
    if words::named(line, k, b"-") {
        return Some(None);
    }
    let n = words::decimal(line, k)?;
    let id = u8::try_from(n).ok()?;
    Some(Some(id))
}

// What is no command.
pub fn say_bad(out: &mut Output)
    ensures { Puts out.old out.new bad }
{
    out.put_bytes(b"bad command");
}

// What is no command changes nothing.
pub fn no_command(state: Record, out: &mut Output) -> Record
    ensures said { Puts out.old out.new bad }
    ensures kept { result ≡ state }
{
    say_bad(out);
    state
}
