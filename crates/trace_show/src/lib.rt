// How the comparing protocol shows what a call gives back: a refusal, the record, the bytes that it filled, and whether the lent bytes beyond them are
// untouched.
#![tactic(auto)]

pub mod face;

ghost use Rattle.std.specs.Prelude.{◌≡◌, ◌++◌, drop};
ghost use Rattle.refusal.specs.Words.{taken};
ghost use Rattle.refusal.specs.Refusal.{row_of};
ghost use Rattle.text_out.specs.Output.{Puts};
ghost use Rattle.trace_show.specs.Shown.{refusal_shown, lent_bytes, untouched_in, kept_shown, fill_shown};
ghost use Rattle.trace_show.specs.Record.{number, id_shown, trimmed, record_shown};

use reassembly::Record;
use refusal::Refusal;
use text_out::Output;

// Bytes to lend to a call, as many of them as it is to have.
pub fn lent() -> [u8; 1024]
    ensures { result ≡ lent_bytes }
{
    [170; 1024]
}

// Whether each byte from a place on is as it was lent.
pub fn untouched(lent: &[u8], from: usize) -> bool
    ensures { result ≡ untouched_in (drop from lent.now) }
{
    for i in from..lent.len() {
        if lent[i] != 170 {
            return false;
        }
    }
    true
}

// KEPT, after a semicolon.
pub fn put_kept(out: &mut Output, kept: bool)
    ensures { Puts out.old out.new (kept_shown kept) }
{
    if kept {
        out.put_bytes(b" ; kept");
    } else {
        out.put_bytes(b" ; spoilt");
    }
}

// A refusal: laid out by its number and values, and shown.
pub fn put_refusal(out: &mut Output, refusal: Refusal)
    ensures { Puts out.old out.new (refusal_shown (row_of refusal)) }
{
    let v = refusal.values();
    let mut numbers = [0u64; 54];
    numbers[0] = v.first;
    numbers[1] = v.second;
    numbers[52] = u64::from(refusal.number());
    numbers[53] = v.count;
    face::put_refusal(out, &numbers, b"");
}

// What a call filled: a word, the n bytes that it handed out, and KEPT.
pub fn put_filled(out: &mut Output, word: &[u8], lent: &[u8], n: usize)
    ensures { Puts out.old out.new (fill_shown word.now (taken n) lent.now) }
{
    let k = text_out::up_to(n, lent);
    let kept = untouched(lent, n);
    out.put_bytes(word);
    face_values::put_shown(out, &lent[..k]);
    put_kept(out, kept);
}

// A call that was refused: the refusal, and KEPT.
pub fn put_refused(out: &mut Output, refusal: Refusal, lent: &[u8])
    ensures { Puts out.old out.new (refusal_shown (row_of refusal) ++ kept_shown (untouched_in lent.now)) }
{
    let kept = untouched(lent, 0);
    put_refusal(out, refusal);
    put_kept(out, kept);
}

// A record: ID FRAGMENT LENGTH BYTES.
pub fn put_record(out: &mut Output, state: Record)
    ensures { Puts out.old out.new (record_shown state) }
{
    let bytes = state.bytes;
    put_id(out, state.message_id);
    put_number(out, state.fragment_number as u64);
    put_number(out, state.len as u64);
    out.put_bytes(b" ");
    face_values::put_shown(out, trim(&bytes));
}

// A message number, or none.
fn put_id(out: &mut Output, number: Option<u8>)
    ensures { Puts out.old out.new (id_shown number) }
{
    match number {
        None => out.put_bytes(b" -"),
        Some(n) => put_number(out, n as u64),
    }
}

// A number after a space.
fn put_number(out: &mut Output, v: u64)
    ensures { Puts out.old out.new (number v) }
{
    out.put_byte(b' ');
    out.put_decimal(v);
}

// The bytes without the zeros at the end.
fn trim(bytes: &[u8]) -> &[u8]
    ensures { result.now ≡ trimmed bytes.now }
{
    let mut rest = bytes;
    while let [head @ .., last] = rest {
        if *last != 0 {
            return rest;
        }
        rest = head;
    }
    rest
}
