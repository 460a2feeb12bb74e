// The commands of the comparing protocol that have nothing to do with the record: `unarmor`, `write` and `decode`.
#![tactic(auto)]

ghost use Rattle.std.specs.Prelude.{◌≡◌};
ghost use Rattle.text_out.specs.Output.{Puts};
ghost use Rattle.trace_alone.specs.Alone.{decode_said, alone_said};
ghost use Rattle.trace_alone.specs.Unarmor.{unarmor_shown, unarmor_said};
ghost use Rattle.trace_alone.specs.Message.{message_shown, decoded_shown};

use messages::Message;
use text_out::Output;

// The answer to a command that has nothing to do with the record, by its first word.
// Not a `match` on the word: the check parts one byte by byte, and did not prove its arms.
pub fn answer_alone(line: &[u8], out: &mut Output)
    ensures { Puts out.old out.new (alone_said line.now) }
{
    if trace_commands::words::named(line, 0, b"unarmor") {
        say_unarmor(line, out);
    } else if trace_commands::words::named(line, 0, b"decode") {
        say_decode(line, out);
    } else if trace_commands::words::named(line, 0, b"write") {
        trace_write::say_write(line, out);
    } else {
        trace_commands::say_bad(out);
    }
}

// `unarmor FILL ROOM DATA`: unarmoring alone, into ROOM bytes.
fn say_unarmor(line: &[u8], out: &mut Output)
    ensures { Puts out.old out.new (unarmor_said line.now) }
{
    let Some(asked) = trace_commands::ask_unarmor(line) else {
        trace_commands::say_bad(out);
        return;
    };
    let mut payload = [0u8; 4096];
    let Some(n) = trace_commands::words::bytes(line, 3, &mut payload) else {
        trace_commands::say_bad(out);
        return;
    };
    let mut lent = trace_show::lent();
    let m = text_out::up_to(asked.room as usize, &lent);
    show_unarmor(&payload[..n], asked.fill as usize, &mut lent[..m], out);
}

// Unarmors into a lent buffer, and shows what was given back.
fn show_unarmor(payload: &[u8], fill: usize, lent: &mut [u8], out: &mut Output)
    ensures { Puts out.old out.new (unarmor_shown payload.now fill lent.old) }
{
    let r = armour::unarmor(payload, fill, lent);
    match r {
        Ok(n) => trace_show::put_filled(out, b"bytes ", lent, n),
        Err(refusal) => trace_show::put_refused(out, refusal, lent),
    }
}

// Decoding alone: the message in these bytes, or the refusal.
fn put_decoded(out: &mut Output, bytes: &[u8])
    ensures { Puts out.old out.new (decoded_shown bytes.now) }
{
    match messages::parse(bytes) {
        Ok(message) => put_message(out, message),
        Err(refusal) => trace_show::put_refusal(out, refusal),
    }
}

// A message: laid out, and shown.
fn put_message(out: &mut Output, message: Message)
    ensures { Puts out.old out.new (message_shown message) }
{
    let laid = layout_answer::whole::lay_message(message);
    trace_show::face::put_message(out, &laid.numbers, &laid.texts);
}

// `decode BYTES`: decoding alone.
fn say_decode(line: &[u8], out: &mut Output)
    ensures { Puts out.old out.new (decode_said line.now) }
{
    if trace_commands::words::count(line) != 2 {
        trace_commands::say_bad(out);
        return;
    }
    let mut payload = [0u8; 4096];
    let Some(n) = trace_commands::words::bytes(line, 1, &mut payload) else {
        trace_commands::say_bad(out);
        return;
    };
    put_decoded(out, &payload[..n]);
}
