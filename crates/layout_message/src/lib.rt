// A message as the last 34 of an answer's 50 numbers, and its texts as 80 bytes.
#![tactic(auto)]

ghost use Rattle.std.specs.Prelude.{◌≡◌, length, replicate, ◌++◌};
ghost use Rattle.text_out.specs.Text.{text, put};
ghost use Rattle.text_out.specs.Output.{Puts};
ghost use Rattle.layout_message.specs.Static.{part_numbers, length_numbers, static_numbers, text_bytes};
ghost use Rattle.layout_message.specs.Message.{message_numbers, message_texts};
ghost use Rattle.layout_message.specs.Asked.{station_numbers, asked_numbers};

use interrogation::{Interrogation, Station};
use layout_numbers::two;
use messages::{AisMessage, Message};
use parsers::Text;
use static_data_report::{MessagePart, PartB, StaticDataReport, Texts};
use text_out::Output;

// A static data report, with the lengths of its texts.
fn put_static(out: &mut [u64], at: usize, s: StaticDataReport, t: Texts) -> usize
    ensures { text result out.new ≡ put (text at out.old) (static_numbers s t) }
{
    let sender = [
        2,
        s.message_type as u64,
        s.repeat_indicator as u64,
        s.mmsi as u64,
    ];
    let told = part(s.message_part);
    let long = lengths(t);
    let rest = [0u64; 18];
    let a = layout_numbers::put_numbers(out, at, &sender);
    let b = layout_numbers::put_numbers(out, a, &told);
    let c = layout_numbers::put_numbers(out, b, &long);
    layout_numbers::put_numbers(out, c, &rest)
}

// The part of a static data report.
fn part(p: MessagePart) -> [u64; 8]
    ensures { result ≡ part_numbers p }
{
    match p {
        MessagePart::PartA => [0, 0, 0, 0, 0, 0, 0, 0],
        MessagePart::PartB(b) => part_b(b),
        MessagePart::Unknown(n) => [n as u64, 0, 0, 0, 0, 0, 0, 0],
    }
}

// Part B's numbers.
fn part_b(b: PartB) -> [u64; 8]
    ensures { result ≡ part_numbers (MessagePart.PartB b) }
{
    [
        1,
        b.ship_type as u64,
        b.unit_model_code as u64,
        b.serial_number as u64,
        b.dimension_to_bow as u64,
        b.dimension_to_stern as u64,
        b.dimension_to_port as u64,
        b.dimension_to_starboard as u64,
    ]
}

// The lengths of the texts.
fn lengths(t: Texts) -> [u64; 4]
    ensures { result ≡ length_numbers t }
{
    [
        t.vessel_name.len as u64,
        t.vendor_id.len as u64,
        t.model_serial.len as u64,
        t.callsign.len as u64,
    ]
}

// The texts of a static data report, twenty bytes for each.
fn put_static_texts(out: &mut Output, t: Texts)
    ensures out_after { Puts out.old out.new (text_bytes t) }
    ensures t_len { length (text_bytes t) ≡ 80 }
{
    put_text(out, t.vessel_name);
    put_text(out, t.vendor_id);
    put_text(out, t.model_serial);
    put_text(out, t.callsign);
}

// A text, with the zeros of its unused places.
fn put_text(out: &mut Output, t: Text)
    ensures out_after { Puts out.old out.new t.bytes }
    ensures bytes_len { length t.bytes ≡ 20 }
{
    out.put_bytes(&t.bytes);
}

// Any message.
pub fn put_message(out: &mut [u64], at: usize, m: Message) -> usize
    ensures { text result out.new ≡ put (text at out.old) (message_numbers m) }
{
    match m.content {
        AisMessage::Nothing => put_nothing(out, at),
        AisMessage::PositionReport(p) => layout_position::put_position(out, at, p),
        AisMessage::StaticDataReport(s) => put_static(out, at, s, m.texts),
        AisMessage::Interrogation => put_asked(out, at, m.interrogation),
    }
}

// No message.
fn put_nothing(out: &mut [u64], at: usize) -> usize
    ensures { text result out.new ≡ put (text at out.old) (replicate 34 0) }
{
    let rest = [0u64; 34];
    layout_numbers::put_numbers(out, at, &rest)
}

// The texts of any message: a static data report's, else zeros.
pub fn put_texts(out: &mut Output, m: Message)
    ensures out_after { Puts out.old out.new (message_texts m) }
    ensures m_len { length (message_texts m) ≡ 80 }
{
    let AisMessage::StaticDataReport(_) = m.content else {
        put_no_texts(out);
        return;
    };
    put_static_texts(out, m.texts);
}

// No texts.
pub fn put_no_texts(out: &mut Output)
    ensures { Puts out.old out.new (replicate 80 0) }
{
    let rest = [0u8; 80];
    out.put_bytes(&rest);
}

// An interrogation.
fn put_asked(out: &mut [u64], at: usize, i: Interrogation) -> usize
    ensures { text result out.new ≡ put (text at out.old) (asked_numbers i) }
{
    let [first, second] = i.stations;
    let sender = [
        3,
        i.message_type as u64,
        i.repeat_indicator as u64,
        i.mmsi as u64,
        i.count as u64,
    ];
    put_runs(out, at, sender, station(first), station(second))
}

// The sender's numbers, those of the two stations, and zeros up to 34.
fn put_runs(
    out: &mut [u64],
    at: usize,
    sender: [u64; 5],
    first: [u64; 8],
    second: [u64; 8],
) -> usize
    ensures { text result out.new ≡ put (text at out.old) (sender ++ (first ++ (second ++ replicate 13 0))) }
{
    let rest = [0u64; 13];
    let a = layout_numbers::put_numbers(out, at, &sender);
    let b = layout_numbers::put_numbers(out, a, &first);
    let c = layout_numbers::put_numbers(out, b, &second);
    layout_numbers::put_numbers(out, c, &rest)
}

// A station of an interrogation.
fn station(s: Station) -> [u64; 8]
    ensures { result ≡ station_numbers s }
{
    let [first, second] = s.messages;
    let [first_there, first_offset] = two(first.slot_offset.map(u64::from));
    let [second_there, second_offset] = two(second.slot_offset.map(u64::from));
    [
        s.mmsi as u64,
        s.count as u64,
        first.message_type as u64,
        first_there,
        first_offset,
        second.message_type as u64,
        second_there,
        second_offset,
    ]
}
