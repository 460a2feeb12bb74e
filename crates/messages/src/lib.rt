// Decoding alone: from unarmored bytes to one of the five message types (messages/mod.rs, `parse`).
// Numbers are matched as they were sent: the paper's table says what each means.
#![tactic(auto)]

ghost use Rattle.std.specs.Prelude.{◌≡◌};
ghost use Rattle.static_data_report.specs.StaticData.{static_data_of};
ghost use Rattle.interrogation.specs.Interrogation.{interrogated_of};
ghost use Rattle.messages.specs.Messages.{no_message, static_in, the_asked_in, ends_static, ends_asked, decoded_in, decoded_of};
ghost use Rattle.messages.specs.Parts.{refused_by, ending_or, unread_by, other_by};

use interrogation::Interrogation;
use position_report::PositionReport;
use radio_status::Unread;
use refusal::Refusal;
use static_data_report::{StaticData, StaticDataReport, Texts};

// What a message tells. A static data report's texts and an interrogation's lists stand beside this enum, in `Message`.
#[derive(Clone, Copy)]
pub enum AisMessage {
    // No `Option<Message>` in its place: the public function `nothing` hands this message out, and an answer that is refused or not decoded holds it.
    Nothing,
    PositionReport(PositionReport),
    StaticDataReport(StaticDataReport),
    Interrogation,
}

// A message of any type; what it has not is zero, empty and absent.
#[derive(Clone, Copy)]
pub struct Message {
    pub content: AisMessage,
    pub texts: Texts,
    pub interrogation: Interrogation,
}

// The message that tells nothing.
pub fn nothing() -> Message
    ensures { result ≡ no_message }
{
    Message {
        content: AisMessage::Nothing,
        texts: static_data_report::no_texts(),
        interrogation: interrogation::no_interrogation(),
    }
}

// Type 24.
fn parse_static(bytes: &[u8]) -> Result<Message, Refusal>
    ensures { decoded_in result ≡ ending_or (ends_static (static_data_of bytes.now)) (static_in (static_data_of bytes.now)) }
{
    let StaticData { report, texts } = static_data_report::parse(bytes)?;
    Ok(Message {
        content: AisMessage::StaticDataReport(report),
        texts,
        ..nothing()
    })
}

// Type 15.
fn parse_interrogation(bytes: &[u8]) -> Result<Message, Refusal>
    ensures { decoded_in result ≡ ending_or (ends_asked (interrogated_of bytes.now)) (the_asked_in (interrogated_of bytes.now)) }
{
    let interrogation = interrogation::parse(bytes)?;
    Ok(Message {
        content: AisMessage::Interrogation,
        interrogation,
        ..nothing()
    })
}

// Why a type that is not decoded is refused: 10, or else 11.
#[tactic(auto, unfolding(refusal::specs::Words::within))]
fn unread(number: u8) -> Refusal
    ensures { refused_by result ≡ unread_by number }
{
    match number {
        4..=14 | 16..=21 | 27 => Refusal::OtherType {
            message_type: number,
        },
        _ => Refusal::UnknownType {
            message_type: number,
        },
    }
}

// Any type but 1 to 3.
fn parse_other(bytes: &[u8], number: u8) -> Result<Message, Refusal>
    ensures { decoded_in result ≡ other_by number bytes.now }
{
    match number {
        15 => parse_interrogation(bytes),
        24 => parse_static(bytes),
        _ => Err(unread(number)),
    }
}

// Decodes unarmored bytes, of any length: 9 if there are none, then 10 or 11 with the type, then 9.
pub fn parse(bytes: &[u8]) -> Result<Message, Refusal>
    ensures { decoded_in result ≡ decoded_of bytes.now }
{
    match position_report::parse(bytes) {
        Ok(report) => Ok(Message {
            content: AisMessage::PositionReport(report),
            ..nothing()
        }),
        Err(Unread::Short) => Err(Refusal::Short),
        Err(Unread::OtherType(number)) => parse_other(bytes, number),
    }
}
