// The command `write` of the comparing protocol: the words of its line, read as what the writer is asked for, and what is said to it.
#![tactic(auto)]

ghost use Rattle.std.specs.Prelude.{◌≡◌};
ghost use Rattle.text_out.specs.Output.{Puts};
ghost use Rattle.trace_commands.specs.Line.{word_at};
ghost use Rattle.trace_write.specs.Write.{write_shown, write_said};
ghost use Rattle.trace_write.specs.Request.{talker_asked, further_talker, report_asked, channel_asked, request_asked, write_asked};

use sentence::{AisReportType, TalkerId};
use text_out::Output;
use writer::Request;

// A request and ROOM of `write`.
#[derive(Clone, Copy)]
struct Asked {
    request: Request,
    room: u64,
}

// `write COUNT TALKER REPORT CHANNEL NUMBER ROOM BYTES`: the writer, into ROOM bytes.
pub fn say_write(line: &[u8], out: &mut Output)
    ensures { Puts out.old out.new (write_said line.now) }
{
    let Some(asked) = ask_write(line) else {
        trace_commands::say_bad(out);
        return;
    };
    let mut payload = [0u8; 4096];
    let Some(n) = trace_commands::words::bytes(line, 7, &mut payload) else {
        trace_commands::say_bad(out);
        return;
    };
    let mut lent = trace_show::lent();
    let m = text_out::up_to(asked.room as usize, &lent);
    show_write(asked.request, &payload[..n], &mut lent[..m], out);
}

// Writes into a lent buffer, and shows what was given back.
fn show_write(request: Request, bits: &[u8], lent: &mut [u8], out: &mut Output)
    ensures { Puts out.old out.new (write_shown request bits.now lent.old) }
{
    match writer::write(request, bits, lent) {
        Ok(n) => trace_show::put_filled(out, b"lines ", lent, n),
        Err(refusal) => trace_show::put_refused(out, refusal, lent),
    }
}

// The numbers of `write COUNT TALKER REPORT CHANNEL NUMBER ROOM BYTES`.
#[tactic(auto, unfolding(crate::specs::Request::write_asked))]
fn ask_write(line: &[u8]) -> Option<Asked>
    ensures { result ≡ write_asked line.now }
{
    if trace_commands::words::count(line) != 8 {
        return None;
    }
    let request = ask_request(line)?;
    let room = trace_commands::words::decimal(line, 6)?;
    if room > 1024 {
        return None;
    }
    Some(Asked { request, room })
}

// COUNT TALKER REPORT CHANNEL NUMBER.
#[tactic(auto, unfolding(crate::specs::Request::request_asked))]
fn ask_request(line: &[u8]) -> Option<Request>
    ensures { result ≡ request_asked line.now }
{
    let count = trace_commands::words::decimal(line, 1)?;
    let talker_id = ask_talker(line)?;
    let report_type = ask_report(line)?;
    let channel = ask_channel(line)?;
    let number = trace_commands::words::decimal(line, 5)?;
    let message_id = u8::try_from(number).ok()?;
    Some(Request {
        count: count as usize,
        talker_id,
        report_type,
        channel,
        message_id,
    })
}

// TALKER: `AB` .. `SA`, or `Unknown`. Not a `match` on the word: the check parts one byte by byte, and did not prove its arms.
#[tactic(auto, unfolding(crate::specs::Request::talker_asked))]
fn ask_talker(line: &[u8]) -> Option<TalkerId>
    ensures { result ≡ talker_asked (word_at 2 line.now) }
{
    if trace_commands::words::named(line, 2, b"AB") {
        return Some(TalkerId::AB);
    }
    if trace_commands::words::named(line, 2, b"AD") {
        return Some(TalkerId::AD);
    }
    if trace_commands::words::named(line, 2, b"AI") {
        return Some(TalkerId::AI);
    }
    if trace_commands::words::named(line, 2, b"AN") {
        return Some(TalkerId::AN);
    }
    if trace_commands::words::named(line, 2, b"AR") {
        return Some(TalkerId::AR);
    }
    ask_further_talker(line)
}

// The other half of the talkers.
#[tactic(auto, unfolding(crate::specs::Request::further_talker))]
fn ask_further_talker(line: &[u8]) -> Option<TalkerId>
    ensures { result ≡ further_talker (word_at 2 line.now) }
{
    if trace_commands::words::named(line, 2, b"AS") {
        return Some(TalkerId::AS);
    }
    if trace_commands::words::named(line, 2, b"AT") {
        return Some(TalkerId::AT);
    }
    if trace_commands::words::named(line, 2, b"AX") {
        return Some(TalkerId::AX);
    }
    if trace_commands::words::named(line, 2, b"BS") {
        return Some(TalkerId::BS);
    }
    if trace_commands::words::named(line, 2, b"SA") {
        return Some(TalkerId::SA);
    }
    if trace_commands::words::named(line, 2, b"Unknown") {
        return Some(TalkerId::Unknown);
    }
    None
}

// REPORT: `VDM`, `VDO` or `Unknown`; by tests of names, as a talker is.
#[tactic(auto, unfolding(crate::specs::Request::report_asked))]
fn ask_report(line: &[u8]) -> Option<AisReportType>
    ensures { result ≡ report_asked (word_at 3 line.now) }
{
    if trace_commands::words::named(line, 3, b"VDM") {
        return Some(AisReportType::VDM);
    }
    if trace_commands::words::named(line, 3, b"VDO") {
        return Some(AisReportType::VDO);
    }
    if trace_commands::words::named(line, 3, b"Unknown") {
        return Some(AisReportType::Unknown);
    }
    None
}

// CHANNEL: `A`, `B`, `-` or another byte's number.
#[tactic(auto, unfolding(crate::specs::Request::channel_asked))]
fn ask_channel(line: &[u8]) -> Option<Option<u8>>
    ensures { result ≡ channel_asked (word_at 4 line.now) }
{
    if trace_commands::words::named(line, 4, b"-") {
        return Some(None);
    }
    if trace_commands::words::named(line, 4, b"A") {
        return Some(Some(65));
    }
    if trace_commands::words::named(line, 4, b"B") {
        return Some(Some(66));
    }
    let number = trace_commands::words::decimal(line, 4)?;
    let byte = u8::try_from(number).ok()?;
    Some(Some(byte))
}
