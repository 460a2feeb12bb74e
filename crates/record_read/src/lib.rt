// Reading a line over a record that lies in lent bytes: the record is changed where it lies, and what is told goes into lent numbers and texts.
#![tactic(auto)]

ghost use Rattle.std.specs.Prelude.{◌≡◌, ◌≤◌, length};
ghost use Rattle.ais.specs.Call.{called_of};
ghost use Rattle.ais.specs.Parts.{handing_of};
ghost use Rattle.record_bytes.specs.Bytes.{record_in, loaded_of};
ghost use Rattle.record_read.specs.Read.{Ends, Reads, read_in, read_of};

use answer::Decode;
use reassembly::Part;
use sentence::AisSentence;

// Reads one line: 0 where a message is complete, 100 where more is to come, else the refusal's number.
pub fn read(
    state: &mut [u8],
    line: &[u8],
    decode: bool,
    payload: &mut [u8],
    bits: &mut [u8],
    numbers: &mut [u64],
    texts: &mut [u8],
) -> u32
    ensures { read_in result state.new payload.new bits.new numbers.new texts.new
        ≡ read_of state.old line.now decode payload.old bits.old numbers.old texts.old }
{
    if state.len() < 400 {
        return 12;
    }
    if numbers.len() < 50 {
        return 12;
    }
    if texts.len() < 80 {
        return 12;
    }
    let decode = answer::decode_of(decode);
    read_line(line, decode, state, payload, bits, numbers, texts)
}

// The last line of several, once it is joined: the payload is handed out from where it lies.
fn read_last(
    s: AisSentence,
    decode: Decode,
    state: &mut [u8],
    payload: &mut [u8],
    bits: &mut [u8],
    numbers: &mut [u64],
    texts: &mut [u8],
) -> u32
    requires { (400 ≤ length state.old) × ((loaded_of state.old).len ≤ 384) }
    ensures { Ends s decode state.old payload.old bits.old numbers.old texts.old result
        state.new payload.new bits.new numbers.new texts.new }
{
    let end = 16 + record_bytes::held_len(state);
    let code = layout_told::tell_complete(
        s,
        &state[16..end],
        decode,
        payload,
        bits,
        numbers,
        texts,
    );
    record_bytes::empty(state);
    code
}

// A sentence with its payload: the record is changed where it lies, and what is told goes by the line's kind.
fn read_sentence(
    s: AisSentence,
    own: &[u8],
    decode: Decode,
    state: &mut [u8],
    payload: &mut [u8],
    bits: &mut [u8],
    numbers: &mut [u64],
    texts: &mut [u8],
) -> u32
    requires { 400 ≤ length state.old }
    ensures { Reads (handing_of (record_in state.old) s own.now decode payload.old bits.old)
        state.old numbers.old texts.old result state.new payload.new bits.new numbers.new
        texts.new }
{
    match record_bytes::join(state, ais::fragment_of(s), own) {
        Err(refusal) => layout_told::tell_refused(refusal, numbers, texts),
        Ok(Part::Unfinished) => layout_told::tell_unfinished(s, own, payload, numbers, texts),
        Ok(Part::Alone) => layout_told::tell_complete(
            s, own, decode, payload, bits, numbers, texts,
        ),
        Ok(Part::Last) => read_last(s, decode, state, payload, bits, numbers, texts),
    }
}

// A line, with a record that is long enough.
fn read_line(
    line: &[u8],
    decode: Decode,
    state: &mut [u8],
    payload: &mut [u8],
    bits: &mut [u8],
    numbers: &mut [u64],
    texts: &mut [u8],
) -> u32
    requires { 400 ≤ length state.old }
    ensures { Reads (called_of (record_in state.old) line.now decode payload.old bits.old)
        state.old numbers.old texts.old result state.new payload.new bits.new numbers.new
        texts.new }
{
    match ais::check(line, payload.len(), bits.len()) {
        Err(refusal) => {
            record_bytes::keep(state);
            layout_told::tell_refused(refusal, numbers, texts)
        }
        Ok(s) => {
            let start = s.payload_start;
            let end = s.payload_end;
            read_sentence(
                s,
                &line[start..end],
                decode,
                state,
                payload,
                bits,
                numbers,
                texts,
            )
        }
    }
}
