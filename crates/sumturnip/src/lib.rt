// The calls of the static library: the reader and the writer for C and Rust. Numbers and lent bytes come in; numbers and bytes go out. Crates `layout_..`,
// `record_bytes` and `record_read` flatten what an enum holds. Crate `sumturnip_c` exports them.
#![tactic(auto)]

pub mod request;

ghost use Rattle.std.specs.Prelude.{◌≡◌};
ghost use Rattle.sumturnip.specs.Request.{request_by};
ghost use Rattle.record_read.specs.Read.{read_in, read_of};
ghost use Rattle.sumturnip.specs.Calls.{version, freshened_in, freshened_of, fills_in, unarms_of, writes_of};

// The library's version, which a caller holds against that of the header.
pub fn sumturnip_version() -> u32
    ensures { result ≡ version }
{
    200
}

// A fresh record: 0, or 12 where the record's bytes are too few.
pub fn sumturnip_fresh(lent: &mut [u8]) -> u32
    ensures { freshened_in result lent.new ≡ freshened_of lent.old }
{
    if lent.len() < 400 {
        return 12;
    }
    record_bytes::store(reassembly::fresh(), lent);
    0
}

// Reads one line: 0 where a message is complete, 100 where more is to come, else the refusal's number.
pub fn sumturnip_read(
    state: &mut [u8],
    line: &[u8],
    decode: bool,
    payload: &mut [u8],
    bits: &mut [u8],
    answer: &mut [u64],
    texts: &mut [u8],
) -> u32
    ensures { read_in result state.new payload.new bits.new answer.new texts.new
        ≡ read_of state.old line.now decode payload.old bits.old answer.old texts.old }
{
    record_read::read(state, line, decode, payload, bits, answer, texts)
}

// Unarmoring alone: 0 with the count of bytes in the answer's first number, else the refusal's number with its value there.
pub fn sumturnip_unarmor(payload: &[u8], fill: usize, out: &mut [u8], answer: &mut [u64]) -> u32
    ensures { fills_in result out.new answer.new ≡ unarms_of payload.now fill out.old answer.old }
{
    if answer.len() < 1 {
        return 12;
    }
    let r = armour::unarmor(payload, fill, out);
    answer[0] = layout_answer::counted(r);
    layout_answer::counted_code(r)
}

// The writer: 0 with the count of bytes in the answer's first number, else the refusal's number. Talker, report type and channel (whether there is one, and its
// byte) have the numbers that `sumturnip_read` tells them by; any other number is refusal 13.
pub fn sumturnip_write(
    count: usize,
    talker: u64,
    report: u64,
    there: u64,
    channel: u64,
    number: u64,
    bits: &[u8],
    out: &mut [u8],
    answer: &mut [u64],
) -> u32
    ensures { fills_in result out.new answer.new
        ≡ writes_of (request_by count talker report there channel number) bits.now out.old answer.old }
{
    if answer.len() < 1 {
        return 12;
    }
    let request = request::request_of(count, talker, report, there, channel, number);
    let written = writer::write(request, bits, out);
    answer[0] = layout_answer::counted(written);
    layout_answer::counted_code(written)
}
