// A position report as 34 numbers (types 1 to 3). A float is its bit pattern, and what may be absent two numbers.
#![tactic(auto)]

ghost use Rattle.std.specs.Prelude.{◌≡◌};
ghost use Rattle.text_out.specs.Text.{text, put};
ghost use Rattle.layout_position.specs.Position.{word_of, pattern_of, reading_in, turn_in, direction_number, movement_numbers};
ghost use Rattle.layout_position.specs.Position.{positioned_numbers, radio_numbers, position_numbers};

use layout_numbers::two;
use navigation::{Direction, ManeuverIndicator, RateOfTurn};
use position_report::{NavigationStatus, PositionReport};
use radio_status::{ItdmaMessage, RadioStatus, SotdmaMessage, SubMessage};

// A position report.
pub fn put_position(out: &mut [u64], at: usize, p: PositionReport) -> usize
    ensures { text result out.new ≡ put (text at out.old) (position_numbers p) }
{
    let a = layout_numbers::put_numbers(out, at, &movement(p));
    let b = layout_numbers::put_numbers(out, a, &position(p));
    layout_numbers::put_numbers(out, b, &radio(p.radio_status))
}

// A signed number.
fn of_signed(v: i32) -> u64
    ensures { result ≡ word_of v }
{
    i64::from(v).cast_unsigned()
}

// A float, by its bit pattern; a NaN has none of its own.
fn of_float(x: f32) -> u64
    ensures { result ≡ pattern_of x }
{
    if x.is_nan() {
        0x7fc0_0000
    } else {
        u64::from(x.to_bits())
    }
}

// A reading.
fn of_reading(reading: Option<f32>) -> Option<u64>
    ensures { result ≡ reading_in reading }
{
    reading.map(of_float)
}

// A turn.
fn of_turn(turn: Option<RateOfTurn>) -> Option<u64>
    ensures { result ≡ turn_in turn }
{
    turn.map(|sent| of_signed(i32::from(sent.raw)))
}

// A direction, by the layout's number, as C has it.
fn of_direction(direction: Option<Direction>) -> u64
    ensures { result ≡ direction_number direction }
{
    match direction {
        None => 0,
        Some(Direction::Port) => 1,
        Some(Direction::Starboard) => 2,
    }
}

// How a ship moves.
fn movement(p: PositionReport) -> [u64; 14]
    ensures { result ≡ movement_numbers p }
{
    let [turn_there, turn] = two(of_turn(p.rate_of_turn));
    let [rate_there, rate] = two(of_reading(p.rate));
    let [speed_there, speed] = two(of_reading(p.speed_over_ground));
    [
        1,
        u64::from(p.message_type),
        u64::from(p.repeat_indicator),
        u64::from(p.mmsi),
        u64::from(NavigationStatus::number(p.navigation_status)),
        turn_there,
        turn,
        rate_there,
        rate,
        of_direction(p.direction),
        speed_there,
        speed,
        u64::from(p.speed_raw),
        u64::from(u8::from(p.position_accuracy)),
    ]
}

// Where it is.
fn position(p: PositionReport) -> [u64; 14]
    ensures { result ≡ positioned_numbers p }
{
    let [longitude_there, longitude] = two(of_reading(p.longitude));
    let longitude_raw = of_signed(p.longitude_raw);
    let [latitude_there, latitude] = two(of_reading(p.latitude));
    let latitude_raw = of_signed(p.latitude_raw);
    let [course_there, course] = two(of_reading(p.course_over_ground));
    let [heading_there, heading] = two(p.true_heading.map(u64::from));
    [
        longitude_there,
        longitude,
        longitude_raw,
        latitude_there,
        latitude,
        latitude_raw,
        course_there,
        course,
        u64::from(p.course_raw),
        heading_there,
        heading,
        u64::from(p.timestamp),
        u64::from(ManeuverIndicator::number(p.maneuver_indicator)),
        u64::from(p.raim),
    ]
}

// SOTDMA.
fn sotdma(m: SotdmaMessage) -> [u64; 6]
    ensures { result ≡ radio_numbers (RadioStatus.Sotdma m) }
{
    let sync = u64::from(u8::from(m.sync_state));
    let timeout = u64::from(m.slot_timeout);
    match m.sub_message {
        SubMessage::SlotOffset(n) => [1, sync, timeout, 1, u64::from(n), 0],
        SubMessage::UtcHourAndMinute(h, m) => [1, sync, timeout, 2, u64::from(h), u64::from(m)],
        SubMessage::SlotNumber(n) => [1, sync, timeout, 3, u64::from(n), 0],
        SubMessage::ReceivedStations(n) => [1, sync, timeout, 4, u64::from(n), 0],
    }
}

// ITDMA.
fn itdma(m: ItdmaMessage) -> [u64; 6]
    ensures { result ≡ radio_numbers (RadioStatus.Itdma m) }
{
    [
        2,
        u64::from(u8::from(m.sync_state)),
        u64::from(m.slot_increment),
        u64::from(m.num_slots),
        u64::from(m.keep),
        0,
    ]
}

// The radio status.
fn radio(status: RadioStatus) -> [u64; 6]
    ensures { result ≡ radio_numbers status }
{
    match status {
        RadioStatus::Sotdma(m) => sotdma(m),
        RadioStatus::Itdma(m) => itdma(m),
    }
}
