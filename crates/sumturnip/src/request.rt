// What the writer is asked for, out of numbers. Talkers, report types and channels have the numbers that an answer tells them by.
ghost use Rattle.std.specs.Prelude.{◌≡◌};
ghost use Rattle.sumturnip.specs.Request.{talker_by, report_by, byte_by, channel_by, request_by};

use sentence::{AisReportType, TalkerId};
use writer::Request;

// The request that these numbers tell; the writer refuses the one of numbers that tell none.
pub fn request_of(
    count: usize,
    talker: u64,
    report: u64,
    there: u64,
    channel: u64,
    number: u64,
) -> Request
    ensures { result ≡ request_by count talker report there channel number }
{
    Request {
        count,
        talker_id: talker_of(talker),
        report_type: report_of(report),
        channel: channel_of(there, channel),
        message_id: byte_of(number),
    }
}

// A talker. Not `From<u64>`: the numbers are the layout's, and the crate of `TalkerId` knows none of them.
fn talker_of(n: u64) -> TalkerId
    ensures { result ≡ talker_by n }
{
    match n {
        1 => TalkerId::AB,
        2 => TalkerId::AD,
        3 => TalkerId::AI,
        4 => TalkerId::AN,
        5 => TalkerId::AR,
        6 => TalkerId::AS,
        7 => TalkerId::AT,
        8 => TalkerId::AX,
        9 => TalkerId::BS,
        10 => TalkerId::SA,
        _ => TalkerId::Unknown,
    }
}

// A report type, in the same way.
fn report_of(n: u64) -> AisReportType
    ensures { result ≡ report_by n }
{
    match n {
        1 => AisReportType::VDM,
        2 => AisReportType::VDO,
        _ => AisReportType::Unknown,
    }
}

// A byte, or 255 for a number that is none.
fn byte_of(n: u64) -> u8
    ensures { result ≡ byte_by n }
{
    u8::try_from(n).unwrap_or(255)
}

// A channel, or none where both numbers are 0.
fn channel_of(there: u64, n: u64) -> Option<u8>
    ensures { result ≡ channel_by there n }
{
    if there == 1 {
        return Some(byte_of(n));
    }
    if there != 0 {
        return Some(255);
    }
    if n != 0 {
        return Some(255);
    }
    None
}
