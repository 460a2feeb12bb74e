// Speed, course, position, turn, heading, accuracy and manoeuvre of a report (messages/navigation.rs).
// Every function answers for every number that its type holds. A value is absent, `None`, at document 01's number alone, and is else as sent.
// Numbers are matched as they were sent: the paper's table says what each means.
#![tactic(auto)]

ghost use Rattle.std.specs.Prelude.{◌≡◌};
ghost use Rattle.navigation.specs.Navigation.{tenths_of, speed_of, course_of, degrees_of, longitude_absent, latitude_absent, Coordinate, heading_of};
ghost use Rattle.navigation.specs.Navigation.{turn_of, rate_of, direction_of, accuracy_of, accuracy_number, manoeuvre_of, manoeuvre_number};

// Tenths of a knot or of a degree.
#[tactic(auto, using(crate::proofs::Constants::ten))]
fn tenths(raw: u16) -> f32
    ensures { result ≡ tenths_of raw }
{
    raw as f32 / 10.0
}

// The speed over ground in knots.
pub fn parse_speed_over_ground(raw: u16) -> Option<f32>
    ensures { result ≡ speed_of raw }
{
    match raw {
        1023 => None,
        _ => Some(tenths(raw)),
    }
}

// Raw rounded to single precision, then divided by 600000. The high part times 4096 and the low part are floats exactly, so the one sum
// rounds as Rust's `raw as f32` does.
fn degrees(raw: i32) -> f32
    ensures { result ≡ degrees_of raw }
{
    let high = raw / 4096;
    let low = raw % 4096;
    ((high as f32) * 4096.0 + (low as f32)) / 600000.0
}

// The longitude in degrees, east above 0.
pub fn parse_longitude(raw: i32) -> Option<f32>
    ensures { Coordinate longitude_absent raw result }
{
    match raw {
        108_600_000 => None,
        _ => Some(degrees(raw)),
    }
}

// The latitude in degrees, north above 0.
pub fn parse_latitude(raw: i32) -> Option<f32>
    ensures { Coordinate latitude_absent raw result }
{
    match raw {
        54_600_000 => None,
        _ => Some(degrees(raw)),
    }
}

// The course over ground in degrees.
pub fn parse_cog(raw: u16) -> Option<f32>
    ensures { result ≡ course_of raw }
{
    match raw {
        3600 => None,
        _ => Some(tenths(raw)),
    }
}

// The true heading in whole degrees.
pub fn parse_heading(raw: u16) -> Option<u16>
    ensures { result ≡ heading_of raw }
{
    match raw {
        511 => None,
        _ => Some(raw),
    }
}

// Whether the position was augmented by a differential signal.
#[derive(Clone, Copy)]
pub enum Accuracy {
    Unaugmented,
    Dgps,
}

impl Accuracy {
    // The accuracy's one bit is a bool, so that Rust's `unreachable!` arm has no place. No `From`: this public function
    // stays (docs/PROMISES.md).
    pub fn parse(bit: bool) -> Self
        ensures { result ≡ accuracy_of bit }
    {
        if bit { Self::Dgps } else { Self::Unaugmented }
    }
}

impl From<Accuracy> for u8 {
    ghost from_gives = { λ accuracy n. n ≡ accuracy_number accuracy };

    // The bit as a number.
    fn from(accuracy: Accuracy) -> u8 {
        match accuracy {
            Accuracy::Unaugmented => 0,
            Accuracy::Dgps => 1,
        }
    }
}

// A turn as it was sent.
#[derive(Clone, Copy)]
pub struct RateOfTurn {
    pub raw: i8,
}

// The side to which a ship turns.
#[derive(Clone, Copy)]
pub enum Direction {
    Port,
    Starboard,
}

impl RateOfTurn {
    // The turn.
    pub fn parse(raw: i8) -> Option<Self>
        ensures { result ≡ turn_of raw }
    {
        match raw {
            -128 => None,
            _ => Some(Self { raw }),
        }
    }

    // The rate in degrees a minute. A caller can build a turn of -128, which is no turn and tells none.
    #[tactic(auto, using(crate::proofs::Constants::turn_unit))]
    pub fn rate(self) -> Option<f32>
        ensures { result ≡ rate_of self.raw }
    {
        match self.raw {
            -128 | -127 | 127 => None,
            raw => {
                let root = raw as f32 / 4.733;
                Some(root * root)
            }
        }
    }

    // The direction: none where the ship does not turn. -128 tells none here either.
    pub fn direction(self) -> Option<Direction>
        ensures { result ≡ direction_of self.raw }
    {
        match self.raw {
            -128 | 0 => None,
            1..=127 => Some(Direction::Starboard),
            _ => Some(Direction::Port),
        }
    }
}

// The manoeuvre indicator.
#[derive(Clone, Copy)]
pub enum ManeuverIndicator {
    NoSpecialManeuver,
    SpecialManeuver,
    Unknown(u8),
}

impl ManeuverIndicator {
    // The manoeuvre indicator of its number.
    pub fn parse(raw: u8) -> Option<Self>
        ensures { result ≡ manoeuvre_of raw }
    {
        match raw {
            0 => None,
            1 => Some(Self::NoSpecialManeuver),
            2 => Some(Self::SpecialManeuver),
            _ => Some(Self::Unknown(raw)),
        }
    }

    // The number of a manoeuvre indicator, absent or not. No `From`: that of the enum could not promise 0 for
    // none, and one for an `Option` cannot stand in this crate.
    pub fn number(sent: Option<Self>) -> u8
        ensures { result ≡ manoeuvre_number sent }
    {
        match sent {
            None => 0,
            Some(Self::NoSpecialManeuver) => 1,
            Some(Self::SpecialManeuver) => 2,
            Some(Self::Unknown(raw)) => raw,
        }
    }
}
