// The static data report, type 24 (messages/static_data_report.rs).
// Numbers are matched as they were sent: the paper's table says what each means.
#![tactic(auto)]

ghost use Rattle.std.specs.Prelude.{◌≡◌};
ghost use Rattle.static_data_report.specs.Table.{table};
ghost use Rattle.static_data_report.specs.StaticData.{no_texts, name_of, part_b_of, part_b_texts_of, report_of, Reports};

use parsers::Text;
use refusal::Refusal;

// Part B's numbers. The ship type is the number as sent.
#[derive(Clone, Copy)]
pub struct PartB {
    pub ship_type: u8,
    pub unit_model_code: u8,
    pub serial_number: u32,
    pub dimension_to_bow: u16,
    pub dimension_to_stern: u16,
    pub dimension_to_port: u16,
    pub dimension_to_starboard: u16,
}

// Which part the report is. Its texts stand beside this enum, in `Texts` (document 01: "keep these arrays beside the enums").
#[derive(Clone, Copy)]
pub enum MessagePart {
    PartA,
    PartB(PartB),
    Unknown(u8),
}

#[derive(Clone, Copy)]
pub struct StaticDataReport {
    pub message_type: u8,
    pub repeat_indicator: u8,
    pub mmsi: u32,
    pub message_part: MessagePart,
}

// The name is part A's, the other three are part B's; a text that the message has not is empty.
#[derive(Clone, Copy)]
pub struct Texts {
    pub vessel_name: Text,
    pub vendor_id: Text,
    pub model_serial: Text,
    pub callsign: Text,
}

// The report, and its texts.
#[derive(Clone, Copy)]
pub struct StaticData {
    pub report: StaticDataReport,
    pub texts: Texts,
}

// No text at all.
pub fn no_texts() -> Texts
    ensures { result ≡ no_texts }
{
    let none = Text {
        bytes: [0u8; 20],
        len: 0,
    };
    Texts {
        vessel_name: none,
        vendor_id: none,
        model_serial: none,
        callsign: none,
    }
}

// The text of part A.
#[tactic(auto, unfolding(crate::specs::StaticData::name_of))]
fn name_of(bytes: &[u8]) -> Texts
    ensures { result ≡ name_of table bytes.now }
{
    Texts {
        vessel_name: parsers::parse_6bit_ascii(bytes, 40, 120),
        ..no_texts()
    }
}

// The numbers of part B.
#[tactic(auto, unfolding(crate::specs::StaticData::part_b_of))]
fn part_b_of(bytes: &[u8]) -> PartB
    ensures { result ≡ part_b_of table bytes.now }
{
    PartB {
        ship_type: parsers::field(bytes, 40, 8) as u8,
        unit_model_code: parsers::field(bytes, 66, 4) as u8,
        serial_number: parsers::field(bytes, 70, 20) as u32,
        dimension_to_bow: parsers::field(bytes, 132, 9) as u16,
        dimension_to_stern: parsers::field(bytes, 141, 9) as u16,
        dimension_to_port: parsers::field(bytes, 150, 6) as u16,
        dimension_to_starboard: parsers::field(bytes, 156, 6) as u16,
    }
}

// The texts of part B: the 24 bits of model and serial are shown both ways.
#[tactic(auto, unfolding(crate::specs::StaticData::part_b_texts_of))]
fn part_b_texts_of(bytes: &[u8]) -> Texts
    ensures { result ≡ part_b_texts_of table bytes.now }
{
    Texts {
        vendor_id: parsers::parse_6bit_ascii(bytes, 48, 18),
        model_serial: parsers::parse_6bit_ascii(bytes, 66, 24),
        callsign: parsers::parse_6bit_ascii(bytes, 90, 42),
        ..no_texts()
    }
}

// The report with a part, and its texts.
#[tactic(auto, unfolding(crate::specs::StaticData::report_of))]
fn report_of(bytes: &[u8], part: MessagePart, texts: Texts) -> StaticData
    ensures { result ≡ report_of table bytes.now part texts }
{
    let report = StaticDataReport {
        message_type: parsers::field(bytes, 0, 6) as u8,
        repeat_indicator: parsers::field(bytes, 6, 2) as u8,
        mmsi: parsers::field(bytes, 8, 30) as u32,
        message_part: part,
    };
    StaticData { report, texts }
}

// Reads the unarmored bytes of a type 24 message. Part A needs 20 bytes, part B 21, an unknown part 5; one that ends before is refused with 9.
pub fn parse(bytes: &[u8]) -> Result<StaticData, Refusal>
    ensures { Reports bytes.now result }
{
    if bytes.len() < 5 {
        return Err(Refusal::Short);
    }
    let part_number = parsers::field(bytes, 38, 2) as u8;
    match part_number {
        0 => {
            if bytes.len() < 20 {
                return Err(Refusal::Short);
            }
            Ok(report_of(bytes, MessagePart::PartA, name_of(bytes)))
        }
        1 => {
            if bytes.len() < 21 {
                return Err(Refusal::Short);
            }
            let part = MessagePart::PartB(part_b_of(bytes));
            Ok(report_of(bytes, part, part_b_texts_of(bytes)))
        }
        _ => Ok(report_of(bytes, MessagePart::Unknown(part_number), no_texts())),
    }
}
