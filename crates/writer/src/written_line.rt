// What a line of ours is made of, beside its numbers and its payload: talker and report type, channel, checksum and line end.
ghost use Rattle.std.specs.Prelude.{◌≡◌, [], ◌∷◌, ◌++◌};
ghost use Rattle.refusal.specs.Words.{is_empty};
ghost use Rattle.scan.specs.Scan.{comma};
ghost use Rattle.sentence.specs.Written.{talker_text, report_text, channel_text, ending};
ghost use Rattle.text_out.specs.Output.{Puts};

use sentence::{AisReportType, TalkerId};
use text_out::Output;

// Whether a talker has no letters.
pub fn unknown_talker(talker: TalkerId) -> bool
    ensures { result ≡ is_empty (talker_text talker) }
{
    talker_letters(talker).is_empty()
}

// Whether a report type has no letters.
pub fn unknown_report(report: AisReportType) -> bool
    ensures { result ≡ is_empty (report_text report) }
{
    report_letters(report).is_empty()
}

// Talker and report type.
pub fn put_address(out: &mut Output, talker: TalkerId, report: AisReportType)
    ensures { Puts out.old out.new (talker_text talker ++ report_text report) }
{
    out.put_bytes(talker_letters(talker));
    out.put_bytes(report_letters(report));
}

// The channel, between commas.
pub fn put_channel(out: &mut Output, channel: Option<u8>)
    ensures { Puts out.old out.new (comma ∷ (channel_text channel ++ comma ∷ [])) }
{
    match channel {
        Some(b) => out.put_bytes(&[b',', b, b',']),
        None => out.put_bytes(b",,"),
    }
}

// What ends a line: the star, the checksum in two capital hex digits, CR LF.
pub fn put_close(out: &mut Output, sum: u8)
    ensures { Puts out.old out.new (ending sum) }
{
    let high = scan::capital_digit(sum / 16);
    let low = scan::capital_digit(sum);
    out.put_bytes(&[b'*', high, low, 13, 10]);
}

// A talker's letters; the unknown one has none.
fn talker_letters(talker: TalkerId) -> &'static [u8]
    ensures { result.now ≡ talker_text talker }
{
    match talker {
        TalkerId::AB => b"AB",
        TalkerId::AD => b"AD",
        TalkerId::AI => b"AI",
        TalkerId::AN => b"AN",
        TalkerId::AR => b"AR",
        TalkerId::AS => b"AS",
        TalkerId::AT => b"AT",
        TalkerId::AX => b"AX",
        TalkerId::BS => b"BS",
        TalkerId::SA => b"SA",
        TalkerId::Unknown => b"",
    }
}

// A report type's letters; the unknown one has none.
fn report_letters(report: AisReportType) -> &'static [u8]
    ensures { result.now ≡ report_text report }
{
    match report {
        AisReportType::VDM => b"VDM",
        AisReportType::VDO => b"VDO",
        AisReportType::Unknown => b"",
    }
}
