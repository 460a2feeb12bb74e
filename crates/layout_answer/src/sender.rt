// The sender of a line that is refused because its type is not decoded: such a call writes no buffers, so the line is read once more.
ghost use Rattle.std.specs.Prelude.{◌≡◌};
ghost use Rattle.layout_answer.specs.Sender.{plain_of, mmsi_of, sender_by, sender_of};

use answer::Decode;
use reassembly::Record;

// The sender of a line that was refused with this number, where it is told.
pub fn sender_of(code: u32, found: Record, line: &[u8]) -> Option<u64>
    ensures { result ≡ sender_of code found line.now }
{
    if code == 10 {
        sender_sent(found, line)
    } else {
        None
    }
}

// The sender by the payload, which a call with decoding off hands out.
fn sender_sent(found: Record, line: &[u8]) -> Option<u64>
    ensures { result ≡ sender_by (plain_of found line.now) }
{
    let mut payload = [0u8; 384];
    let mut bits = [0u8; 288];
    let s = ais::step(found, line, Decode::Off, &mut payload, &mut bits);
    if s.answer.sentence.sent_bits < 38 {
        return None;
    }
    Some(mmsi_of(&payload))
}

// The MMSI among the first characters of a payload.
fn mmsi_of(payload: &[u8]) -> u64
    ensures { result ≡ mmsi_of payload.now }
{
    let mut bits = [0u8; 6];
    let k = text_out::up_to(7, payload);
    let _ = armour::unarmor(&payload[..k], 0, &mut bits);
    parsers::field(&bits, 8, 30)
}
