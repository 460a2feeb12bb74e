// Position reports, types 1 to 3 (messages/position_report.rs).
// Numbers are matched as they were sent: the paper's table says what each means.
#![tactic(auto)]

ghost use Rattle.std.specs.Prelude.{◌≡◌};
ghost use Rattle.parsers.specs.Table.{number_at, signed_at};
ghost use Rattle.navigation.specs.Navigation.{turn_of};
ghost use Rattle.position_report.specs.Table.{position_table};
ghost use Rattle.position_report.specs.Report.{status_of, status_number, rate_in, direction_in, report_with, report_in, answer_of};

use navigation::{Accuracy, Direction, ManeuverIndicator, RateOfTurn};
use radio_status::{RadioStatus, Unread};

// What a ship says that it is doing.
#[derive(Clone, Copy)]
pub enum NavigationStatus {
    UnderWayUsingEngine,
    AtAnchor,
    NotUnderCommand,
    RestrictedManouverability,
    ConstrainedByDraught,
    Moored,
    Aground,
    EngagedInFishing,
    UnderWaySailing,
    ReservedForHSC,
    ReservedForWIG,
    Reserved01,
    Reserved02,
    Reserved03,
    AisSartIsActive,
}

impl NavigationStatus {
    // The status of a report. Four bits leave 15, which is absent, to the last arm, so Rust's `Unknown` has no place.
    #[tactic(auto, using(crate::proofs::Laws::status_absent), unfolding(crate::specs::Report::status_of))]
    fn parse(bytes: &[u8]) -> Option<Self>
        ensures { result ≡ status_of (number_at bytes.now position_table.status) }
    {
        match parsers::field(bytes, 38, 4) {
            0 => Some(Self::UnderWayUsingEngine),
            1 => Some(Self::AtAnchor),
            2 => Some(Self::NotUnderCommand),
            3 => Some(Self::RestrictedManouverability),
            4 => Some(Self::ConstrainedByDraught),
            5 => Some(Self::Moored),
            6 => Some(Self::Aground),
            7 => Some(Self::EngagedInFishing),
            8 => Some(Self::UnderWaySailing),
            9 => Some(Self::ReservedForHSC),
            10 => Some(Self::ReservedForWIG),
            11 => Some(Self::Reserved01),
            12 => Some(Self::Reserved02),
            13 => Some(Self::Reserved03),
            14 => Some(Self::AisSartIsActive),
            _ => None,
        }
    }

    // The number of a status, absent or not, as its four bits have it. No `From`: that of the enum could not
    // promise 15 for none, and one for an `Option` cannot stand in this crate.
    pub fn number(sent: Option<Self>) -> u8
        ensures { result ≡ status_number sent }
    {
        match sent {
            None => 15,
            Some(Self::UnderWayUsingEngine) => 0,
            Some(Self::AtAnchor) => 1,
            Some(Self::NotUnderCommand) => 2,
            Some(Self::RestrictedManouverability) => 3,
            Some(Self::ConstrainedByDraught) => 4,
            Some(Self::Moored) => 5,
            Some(Self::Aground) => 6,
            Some(Self::EngagedInFishing) => 7,
            Some(Self::UnderWaySailing) => 8,
            Some(Self::ReservedForHSC) => 9,
            Some(Self::ReservedForWIG) => 10,
            Some(Self::Reserved01) => 11,
            Some(Self::Reserved02) => 12,
            Some(Self::Reserved03) => 13,
            Some(Self::AisSartIsActive) => 14,
        }
    }
}

// A report: each field as sent or absent, the rate and the direction that its turn tells, and the raw number beside each speed, course
// and position.
#[derive(Clone, Copy)]
pub struct PositionReport {
    pub message_type: u8,
    pub repeat_indicator: u8,
    pub mmsi: u32,
    pub navigation_status: Option<NavigationStatus>,
    pub rate_of_turn: Option<RateOfTurn>,
    pub rate: Option<f32>,
    pub direction: Option<Direction>,
    pub speed_over_ground: Option<f32>,
    pub speed_raw: u16,
    pub position_accuracy: Accuracy,
    pub longitude: Option<f32>,
    pub longitude_raw: i32,
    pub latitude: Option<f32>,
    pub latitude_raw: i32,
    pub course_over_ground: Option<f32>,
    pub course_raw: u16,
    pub true_heading: Option<u16>,
    pub timestamp: u8,
    pub maneuver_indicator: Option<ManeuverIndicator>,
    pub raim: bool,
    pub radio_status: RadioStatus,
}

// The turn of a report.
fn turn_in(bytes: &[u8]) -> Option<RateOfTurn>
    ensures { result ≡ turn_of (signed_at bytes.now position_table.turn) }
{
    RateOfTurn::parse(parsers::signed_i32(bytes, 42, 8) as i8)
}

// The rate that a turn tells. An absent turn has none.
fn rate_in(turn: Option<RateOfTurn>) -> Option<f32>
    ensures { result ≡ rate_in turn }
{
    turn?.rate()
}

// The direction that a turn tells. An absent turn has none.
fn direction_in(turn: Option<RateOfTurn>) -> Option<Direction>
    ensures { result ≡ direction_in turn }
{
    turn?.direction()
}

// The report in these bytes, field by field, with its radio status.
fn parse_base(bytes: &[u8], status: RadioStatus) -> PositionReport
    ensures { result ≡ report_with position_table bytes.now status }
{
    let message_type = parsers::field(bytes, 0, 6) as u8;
    let rate_of_turn = turn_in(bytes);
    let speed_raw = parsers::field(bytes, 50, 10) as u16;
    let longitude_raw = parsers::signed_i32(bytes, 61, 28);
    let latitude_raw = parsers::signed_i32(bytes, 89, 27);
    let course_raw = parsers::field(bytes, 116, 12) as u16;
    PositionReport {
        message_type,
        repeat_indicator: parsers::field(bytes, 6, 2) as u8,
        mmsi: parsers::field(bytes, 8, 30) as u32,
        navigation_status: NavigationStatus::parse(bytes),
        rate_of_turn,
        rate: rate_in(rate_of_turn),
        direction: direction_in(rate_of_turn),
        speed_over_ground: navigation::parse_speed_over_ground(speed_raw),
        speed_raw,
        position_accuracy: Accuracy::parse(parsers::field(bytes, 60, 1) == 1),
        longitude: navigation::parse_longitude(longitude_raw),
        longitude_raw,
        latitude: navigation::parse_latitude(latitude_raw),
        latitude_raw,
        course_over_ground: navigation::parse_cog(course_raw),
        course_raw,
        true_heading: navigation::parse_heading(parsers::field(bytes, 128, 9) as u16),
        timestamp: parsers::field(bytes, 137, 6) as u8,
        maneuver_indicator: ManeuverIndicator::parse(parsers::field(bytes, 143, 2) as u8),
        raim: parsers::field(bytes, 148, 1) == 1,
        radio_status: status,
    }
}

// The report in these bytes, of any type and length. Its radio status is its last field: whoever has that has a report's type and length,
// and why there is none is why there is no report.
pub fn parse(bytes: &[u8]) -> Result<PositionReport, Unread>
    ensures { report_in result ≡ answer_of position_table bytes.now }
{
    let Some(number) = parsers::message_type(bytes) else {
        return Err(Unread::Short);
    };
    let status = radio_status::parse_radio(bytes, number as u8)?;
    Ok(parse_base(bytes, status))
}
