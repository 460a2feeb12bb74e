// What a call of the reader gives back, as the comparing protocol shows it: the answer, KEPT, and the record.
#![tactic(auto)]

ghost use Rattle.std.specs.Prelude.{◌≡◌};
ghost use Rattle.ais.specs.Call.{called_in};
ghost use Rattle.text_out.specs.Output.{Puts};
ghost use Rattle.trace_call.specs.Called.{bits_out, answer_shown, called_shown};
ghost use Rattle.trace_call.specs.Taken.{handed_shown, both_kept, laid_shown, taken_shown};

use ais::Stepped;
use answer::{Decode, Outcome};
use text_out::Output;

// All that a call gave back. The two buffers are as they are after it.
pub fn put_called(out: &mut Output, stepped: Stepped, decode: Decode, payload: &[u8], bits: &[u8])
    ensures { Puts out.old out.new (called_shown decode (called_in stepped payload.now bits.now)) }
{
    put_answer(out, stepped, decode, payload, bits);
    trace_show::put_record(out, stepped.state);
}

// What was told, and KEPT.
fn put_answer(out: &mut Output, stepped: Stepped, decode: Decode, payload: &[u8], bits: &[u8])
    ensures { Puts out.old out.new (answer_shown decode (called_in stepped payload.now bits.now)) }
{
    match stepped.answer.outcome {
        Outcome::Complete => {
            let m = bits_out(decode, stepped.answer.sentence.payload_len);
            put_taken(out, b"complete", stepped, payload, bits, m);
        }
        Outcome::Unfinished => put_taken(out, b"unfinished", stepped, payload, bits, 0),
        Outcome::Refused(refusal) => {
            trace_show::put_refusal(out, refusal);
            put_both_kept(out, payload, 0, bits, 0);
        }
    }
}

// How many bytes of the bit buffer a complete message with a payload of n bytes hands out.
fn bits_out(decode: Decode, n: usize) -> usize
    ensures { result ≡ bits_out decode n }
{
    match decode {
        Decode::Off => 0,
        // six bits for each byte, in whole bytes: three for every four
        Decode::On => n / 4 * 3 + (n % 4 * 6 + 7) / 8,
    }
}

// A line that was taken, of which m bytes were handed out in the bit buffer.
fn put_taken(out: &mut Output, word: &[u8], stepped: Stepped, payload: &[u8], bits: &[u8], m: usize)
    ensures { Puts out.old out.new (taken_shown word.now m (called_in stepped payload.now bits.now)) }
{
    let n = stepped.answer.sentence.payload_len;
    let laid = layout_answer::whole::lay(stepped.answer, 0, 0);
    let numbers = laid.numbers;
    let texts = laid.texts;
    put_laid(out, word, &numbers, &texts, payload, n, bits, m);
}

// The same from the answer's layout, with the n and m bytes that were handed out in the buffers.
fn put_laid(
    out: &mut Output,
    word: &[u8],
    numbers: &[u64],
    texts: &[u8],
    payload: &[u8],
    n: usize,
    bits: &[u8],
    m: usize,
)
    ensures { Puts out.old out.new (laid_shown word.now numbers.now texts.now payload.now n bits.now m) }
{
    out.put_bytes(word);
    trace_show::face::put_sentence(out, numbers, texts);
    put_handed(out, payload, n);
    put_handed(out, bits, m);
    out.put_byte(b' ');
    trace_show::face::put_message(out, numbers, texts);
    put_both_kept(out, payload, n, bits, m);
}

// The first n bytes of a buffer.
fn put_handed(out: &mut Output, buffer: &[u8], n: usize)
    ensures { Puts out.old out.new (handed_shown n buffer.now) }
{
    let k = text_out::up_to(n, buffer);
    out.put_byte(b' ');
    face_values::put_shown(out, &buffer[..k]);
}

// KEPT, of the bytes beyond n of the one buffer and beyond m of the other.
fn put_both_kept(out: &mut Output, payload: &[u8], n: usize, bits: &[u8], m: usize)
    ensures { Puts out.old out.new (both_kept n payload.now m bits.now) }
{
    if trace_show::untouched(payload, n) {
        trace_show::put_kept(out, trace_show::untouched(bits, m));
    } else {
        trace_show::put_kept(out, false);
    }
}
