// The comparing protocol: a command line is answered by its first word.
#![tactic(auto)]

ghost use Rattle.std.specs.Prelude.{◌≡◌, take};
ghost use Rattle.text_out.specs.Output.{Puts};
ghost use Rattle.trace_protocol.specs.Lend.{fresh_reply, lend_reply};
ghost use Rattle.trace_show.specs.Shown.{lent_bytes};
ghost use Rattle.trace_protocol.specs.Read.{line_reply, read_reply};
ghost use Rattle.trace_protocol.specs.Said.{said_of, kept_of};

use answer::Decode;
use reassembly::Record;
use text_out::Output;

// The answer to a command line, by its first word.
// Not a `match` on the word: the check parts one byte by byte, and did not prove its arms.
pub fn answer(state: Record, line: &[u8], out: &mut Output) -> Record
    ensures said { Puts out.old out.new (said_of state line.now) }
    ensures kept { result ≡ kept_of state line.now }
{
    if trace_commands::words::named(line, 0, b"fresh") {
        return say_fresh(state, line, out);
    }
    if trace_commands::words::named(line, 0, b"lend") {
        return say_lend(state, line, out);
    }
    if trace_commands::words::named(line, 0, b"read") {
        return say_read(state, line, out);
    }
    trace_alone::answer_alone(line, out);
    state
}

// `fresh`: makes the record fresh.
fn say_fresh(state: Record, line: &[u8], out: &mut Output) -> Record
    ensures said { Puts out.old out.new (fresh_reply state line.now).said }
    ensures kept { result ≡ (fresh_reply state line.now).kept }
{
    if trace_commands::words::count(line) != 1 {
        return trace_commands::no_command(state, out);
    }
    out.put_bytes(b"fresh");
    reassembly::fresh()
}

// `lend ID FRAGMENT LENGTH BYTES`: sets the record.
fn say_lend(state: Record, line: &[u8], out: &mut Output) -> Record
    ensures said { Puts out.old out.new (lend_reply state line.now).said }
    ensures kept { result ≡ (lend_reply state line.now).kept }
{
    let Some(asked) = trace_commands::ask_lend(line) else {
        return trace_commands::no_command(state, out);
    };
    let mut bytes = [0u8; 384];
    if trace_commands::words::bytes(line, 4, &mut bytes).is_none() {
        return trace_commands::no_command(state, out);
    }
    out.put_bytes(b"lent");
    reassembly::made(asked.number, asked.fragment, asked.len as usize, bytes)
}

// `read DECODE ROOM BITROOM LINE`: reads one line, into ROOM bytes and BITROOM bytes.
fn say_read(state: Record, line: &[u8], out: &mut Output) -> Record
    ensures said { Puts out.old out.new (read_reply state line.now).said }
    ensures kept { result ≡ (read_reply state line.now).kept }
{
    let Some(asked) = trace_commands::ask_read(line) else {
        return trace_commands::no_command(state, out);
    };
    let mut sent = [0u8; 4096];
    let Some(n) = trace_commands::words::bytes(line, 4, &mut sent) else {
        return trace_commands::no_command(state, out);
    };
    lend_read(
        state,
        &sent[..n],
        asked.decode,
        asked.room as usize,
        asked.bit_room as usize,
        out,
    )
}

// Reads a line into lent buffers of these sizes.
fn lend_read(
    state: Record,
    sent: &[u8],
    decode: Decode,
    room: usize,
    bitroom: usize,
    out: &mut Output,
) -> Record
    ensures said { Puts out.old out.new (line_reply state sent.now decode (take room lent_bytes) (take bitroom lent_bytes)).said }
    ensures kept { result ≡ (line_reply state sent.now decode (take room lent_bytes) (take bitroom lent_bytes)).kept }
{
    let mut payload = trace_show::lent();
    let mut bits = trace_show::lent();
    let n = text_out::up_to(room, &payload);
    let m = text_out::up_to(bitroom, &bits);
    show_read(state, sent, decode, &mut payload[..n], &mut bits[..m], out)
}

// Reads a line into lent buffers, and shows what was given back.
fn show_read(
    state: Record,
    sent: &[u8],
    decode: Decode,
    payload: &mut [u8],
    bits: &mut [u8],
    out: &mut Output,
) -> Record
    ensures said { Puts out.old out.new (line_reply state sent.now decode payload.old bits.old).said }
    ensures kept { result ≡ (line_reply state sent.now decode payload.old bits.old).kept }
{
    let stepped = reader::call(state, sent, decode, payload, bits);
    trace_call::put_called(out, stepped, decode, payload, bits);
    stepped.state
}
