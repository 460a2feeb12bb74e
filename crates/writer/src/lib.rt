// The writer: a message's bits as lines, which the reader gives back. The crate ais has none.
#![tactic(auto)]

pub mod written_line;

ghost use Rattle.std.specs.Prelude.{◌≡◌, false, [], ◌∷◌, ◌+◌, ◌/◌, ◌≤◌, ◌<◌, eqb, length, get_or};
ghost use Rattle.std.proofs.Math.Seq.{slice};
ghost use Rattle.refusal.specs.Words.{pick};
ghost use Rattle.armour.specs.Armour.{letter};
ghost use Rattle.scan.specs.Scan.{comma, digit};
ghost use Rattle.sentence.specs.Written.{id_text, channel_text, body_text};
ghost use Rattle.text_out.specs.Output.{Puts};
ghost use Rattle.writer.specs.Message.{chars_in, armoured, lines_in, parts_of, text_of, text_all};
ghost use Rattle.writer.specs.Writer.{bad_count, other_channel, outside, message_of, Writes};

use refusal::Refusal;
use sentence::{AisReportType, TalkerId};
use text_out::Output;

// What is asked for, beside the bytes that hold the bits: how many bits they are, and what each line says.
#[derive(Clone, Copy)]
pub struct Request {
    pub count: usize,
    pub talker_id: TalkerId,
    pub report_type: AisReportType,
    pub channel: Option<u8>,
    pub message_id: u8,
}

// A request within the writer's limits, with the bytes that hold its bits.
#[derive(Clone, Copy)]
struct Accepted<'a> {
    request: Request,
    bits: &'a [u8],
    ghost inside: { outside request bits.now ≡ false },
}

// Writes the lines of a message into `out`, and tells how many bytes they are: refusals 13 and 12, in that order.
pub fn write(request: Request, bits: &[u8], out: &mut [u8]) -> Result<usize, Refusal>
    ensures { Writes request bits.now out.old result out.new }
{
    if is_outside(request, bits) {
        return Err(Refusal::Request);
    }
    let accepted = Accepted { request, bits };
    let lines = lines_in(request.count);
    let chars = (request.count + 5) / 6;
    let need = lines * beside(lines, request.channel) + chars;
    if out.len() < need {
        return Err(Refusal::Room);
    }
    let mut lent = Output::new(out, 0);
    put_lines(&mut lent, accepted);
    Ok(lent.at)
}

// Whether a request is outside the writer's limits.
#[tactic(auto, unfolding(crate::specs::Writer::outside))]
fn is_outside(request: Request, bits: &[u8]) -> bool
    ensures { result ≡ outside request bits.now }
{
    bad_count(request.count, bits)
        || written_line::unknown_talker(request.talker_id)
        || written_line::unknown_report(request.report_type)
        || other_channel(request.channel)
        || 9 < request.message_id
}

// Bits 1 to 2304, in enough bytes, or not.
#[tactic(auto, unfolding(refusal::specs::Words::within))]
fn bad_count(count: usize, bits: &[u8]) -> bool
    ensures { result ≡ bad_count count bits.now }
{
    count < 1 || 2304 < count || bits.len() < (count + 7) / 8
}

// A channel that is neither A nor B nor none.
#[tactic(auto, unfolding(refusal::specs::Words::within))]
fn other_channel(channel: Option<u8>) -> bool
    ensures { result ≡ other_channel channel }
{
    match channel {
        None => false,
        Some(b) => b < 65 || 66 < b,
    }
}

// How many lines a message of so many bits takes.
fn lines_in(count: usize) -> usize
    requires { count ≤ 2304 }
    ensures { result ≡ (chars_in count + 59) / 60 }
{
    ((count + 5) / 6 + 59) / 60
}

// How many bytes a line has beside its payload.
fn beside(lines: usize, channel: Option<u8>) -> usize
    ensures { result ≡ pick (eqb lines 1) 20 21 + length (channel_text channel) }
{
    if lines == 1 {
        return match channel {
            None => 20,
            Some(_) => 21,
        };
    }
    match channel {
        None => 21,
        Some(_) => 22,
    }
}

// All lines.
fn put_lines(out: &mut Output, asked: Accepted)
    ensures { Puts out.old out.new (text_all (message_of asked.entry.request asked.entry.bits.now)) }
{
    let lines = lines_in(asked.request.count);
    for i in 1..lines + 1 {
        put_line(out, asked, i);
    }
}

// Line i: the checksum is of the bytes between the start mark and the star.
fn put_line(out: &mut Output, asked: Accepted, i: usize)
    requires { (1 ≤ i) × (i ≤ lines_in (message_of asked.request asked.bits.now)) }
    ensures { Puts out.old out.new (text_of (message_of asked.entry.request asked.entry.bits.now) i) }
{
    let mut bytes = [0u8; 80];
    let mut body = Output::new(&mut bytes, 0);
    put_body(&mut body, asked, i);
    let n = body.at;
    let line = &body.buffer[..n];
    let sum = scan::exclusive_or(line);
    out.put_byte(b'!');
    out.put_bytes(line);
    written_line::put_close(out, sum);
}

// What stands between the start mark and the star of line i.
fn put_body(out: &mut Output, asked: Accepted, i: usize)
    requires { (1 ≤ i) × (i ≤ lines_in (message_of asked.request asked.bits.now)) }
    ensures { Puts out.old out.new (body_text (parts_of (message_of asked.entry.request asked.entry.bits.now) i)) }
{
    let request = asked.request;
    let bits = asked.bits;
    let count = request.count;
    let talker = request.talker_id;
    let report = request.report_type;
    let channel = request.channel;
    let lines = lines_in(count);
    let chars = (count + 5) / 6;
    let fill = chars * 6 - count;
    let from = 60 * (i - 1);
    written_line::put_address(out, talker, report);
    put_numbers(out, lines, i, request.message_id);
    written_line::put_channel(out, channel);
    if i < lines {
        put_payload(out, bits, count, from, from + 60);
        put_fill(out, 0);
    } else {
        put_payload(out, bits, count, from, chars);
        put_fill(out, fill);
    }
}

// How many lines there are, which of them this is, and the message number, which a single line leaves empty.
fn put_numbers(out: &mut Output, total: usize, number: usize, id: u8)
    requires { (total ≤ 9) × ((number ≤ 9) × (id ≤ 9)) }
    ensures { Puts out.old out.new (comma ∷ digit total ∷ comma ∷ digit number ∷ comma ∷ id_text (pick (eqb total 1) None (Some id))) }
{
    let s = [b',', b'0' + total as u8, b',', b'0' + number as u8, b','];
    out.put_bytes(&s);
    if total != 1 {
        out.put_byte(b'0' + id);
    }
}

// The payload's characters from place `from` up to place `to`.
fn put_payload(out: &mut Output, bits: &[u8], count: usize, from: usize, to: usize)
    requires { (count ≤ 2304) × ((from ≤ to) × (to ≤ chars_in count)) }
    ensures { Puts out.old out.new (slice from to (armoured bits.now count)) }
{
    for i in from..to {
        out.put_byte(char_at(bits, count, i));
    }
}

// The fill, after a comma.
fn put_fill(out: &mut Output, fill: usize)
    requires { fill ≤ 9 }
    ensures { Puts out.old out.new (comma ∷ digit fill ∷ []) }
{
    let s = [b',', b'0' + fill as u8];
    out.put_bytes(&s);
}

// Character i of the payload: six bits, of which those that the caller did not count are 0.
fn char_at(bits: &[u8], count: usize, i: usize) -> u8
    requires { (count ≤ 2304) × (i < chars_in count) }
    ensures { result ≡ get_or (armoured bits.now count) i 0 }
{
    let v = parsers::field(bits, i * 6, 6) as u8;
    let left = count - i * 6;
    if left < 6 {
        let spare = 6 - left;
        return letter_of((v >> spare) << spare);
    }
    letter_of(v)
}

// The armour character of six bits.
fn letter_of(v: u8) -> u8
    requires { v < 64 }
    ensures { result ≡ letter v }
{
    if v < 40 { v + 48 } else { v + 56 }
}
