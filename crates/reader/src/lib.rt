// Reading a line over a record that the caller lends (sentence.rs, `AisParser::parse` over `&mut self`), and for programs.
#![tactic(auto)]

ghost use Rattle.std.specs.Prelude.{◌≡◌};
ghost use Rattle.ais.specs.Call.{called_in, called_of};

use ais::Stepped;
use answer::{Answer, Decode};
use reassembly::Record;

// Reads one line. The caller lends the record and finds its new state there.
pub fn read(
    state: &mut Record,
    line: &[u8],
    decode: Decode,
    payload: &mut [u8],
    bits: &mut [u8],
) -> Answer
    ensures { called_in (record { state = state.exit.now; answer = result }) payload.new bits.new
        ≡ called_of state.entry.now line.now decode payload.old bits.old }
{
    let s = ais::step(*state, line, decode, payload, bits);
    *state = s.state;
    s.answer
}

// For whoever holds the record by value, as a program's loop does: it is lent to `read` and comes back.
pub fn call(
    state: Record,
    line: &[u8],
    decode: Decode,
    payload: &mut [u8],
    bits: &mut [u8],
) -> Stepped
    ensures { called_in result payload.new bits.new
        ≡ called_of state line.now decode payload.old bits.old }
{
    let mut lent = state;
    let answer = read(&mut lent, line, decode, payload, bits);
    Stepped {
        state: lent,
        answer: answer,
    }
}
