// Interrogation, type 15: which messages are asked of which stations (messages/interrogation.rs).
#![tactic(auto)]

ghost use Rattle.std.specs.Prelude.{◌≡◌, [], ◌∷◌, ◌≤◌};
ghost use Rattle.interrogation.specs.Table.{table};
ghost use Rattle.interrogation.specs.Interrogation.{no_message, no_station, no_interrogation, offset_of, dropped, kept, station_of};
ghost use Rattle.interrogation.specs.Interrogation.{message_at, message_end, station_at, station_end, headed, Interrogates};

use refusal::Refusal;

// The slot in which the answer is asked for, counted from this one; absent where its 12 bits are 0.
fn slot_offset(raw: u16) -> Option<u16>
    ensures { result ≡ offset_of raw }
{
    match raw {
        0 => None,
        _ => Some(raw),
    }
}

// A message that is asked for. The slot offset is also absent where it was not sent.
#[derive(Clone, Copy)]
pub struct Message {
    pub message_type: u8,
    pub slot_offset: Option<u16>,
}

impl Message {
    // What an unused place of a list holds.
    fn none() -> Self
        ensures { result ≡ no_message }
    {
        Self {
            message_type: 0,
            slot_offset: None,
        }
    }

    // The message at a place, and the place after it. The place is small, so that no sum of places can wrap. Where fewer than 12 bits remain for the
    // offset, none is taken.
    #[tactic(auto, unfolding(crate::specs::Interrogation::message_at, crate::specs::Interrogation::message_end))]
    fn parse(bytes: &[u8], at: usize) -> (Self, usize)
        requires { at ≤ 400 }
        ensures { (result.0 ≡ message_at table bytes.now at) × (result.1 ≡ message_end table bytes.now at) }
    {
        let message_type = parsers::field(bytes, at, 6) as u8;
        let next = at + 6;
        if parsers::remaining_bits(bytes, next) < 12 {
            let slot_offset = None;
            return (
                Self {
                    message_type,
                    slot_offset,
                },
                next,
            );
        }
        let slot_offset = slot_offset(parsers::field(bytes, next, 12) as u16);
        (
            Self {
                message_type,
                slot_offset,
            },
            next + 12,
        )
    }

    // Whether nothing is asked: the type is 0 and the offset absent.
    fn is_none(self) -> bool
        ensures { result ≡ dropped self }
    {
        self.message_type == 0 && self.slot_offset.is_none()
    }
}

// A station and the messages that are asked of it: the first `count` places of the list, in the form that the scope fixes (arrays of structs, no heap).
#[derive(Clone, Copy)]
pub struct Station {
    pub mmsi: u32,
    pub messages: [Message; 2],
    pub count: u8,
}

impl Station {
    // What an unused place of a list holds.
    fn none() -> Self
        ensures { result ≡ no_station }
    {
        Self {
            mmsi: 0,
            messages: [Message::none(); 2],
            count: 0,
        }
    }

    // A station of which one message is asked.
    fn one(mmsi: u32, first: Message) -> Self
        ensures { result ≡ station_of mmsi (first ∷ []) }
    {
        Self {
            mmsi,
            messages: [first, Message::none()],
            count: 1,
        }
    }

    // A station with a second message, which is dropped if it asks nothing.
    fn two(mmsi: u32, first: Message, second: Message) -> Self
        ensures { result ≡ station_of mmsi (first ∷ kept second) }
    {
        if second.is_none() {
            return Self::one(mmsi, first);
        }
        Self {
            mmsi,
            messages: [first, second],
            count: 2,
        }
    }

    // The station at a place, and the place after it.
    #[tactic(auto, using(crate::proofs::Laws::message_takes), unfolding(crate::specs::Interrogation::station_at, crate::specs::Interrogation::messages_at, crate::specs::Interrogation::station_end))]
    fn parse(bytes: &[u8], at: usize) -> (Self, usize)
        requires { at ≤ 300 }
        ensures { (result.0 ≡ station_at table bytes.now at) × (result.1 ≡ station_end table bytes.now at) }
    {
        let mmsi = parsers::field(bytes, at, 30) as u32;
        let (first, next) = Message::parse(bytes, at + 30);
        if parsers::remaining_bits(bytes, next) < 8 {
            return (Self::one(mmsi, first), next);
        }
        let (second, end) = Message::parse(bytes, next + 2);
        (Self::two(mmsi, first, second), end)
    }
}

// An interrogation: the first `count` places of the list are its stations, in the same form.
#[derive(Clone, Copy)]
pub struct Interrogation {
    pub message_type: u8,
    pub repeat_indicator: u8,
    pub mmsi: u32,
    pub stations: [Station; 2],
    pub count: u8,
}

// The interrogation that tells nothing: zero numbers, and no station.
pub fn no_interrogation() -> Interrogation
    ensures { result ≡ no_interrogation }
{
    Interrogation {
        message_type: 0,
        repeat_indicator: 0,
        mmsi: 0,
        stations: [Station::none(); 2],
        count: 0,
    }
}

// The head, and the stations as they were read.
fn headed(bytes: &[u8], stations: [Station; 2], count: u8) -> Interrogation
    ensures { result ≡ headed table bytes.now stations count }
{
    Interrogation {
        message_type: parsers::field(bytes, 0, 6) as u8,
        repeat_indicator: parsers::field(bytes, 6, 2) as u8,
        mmsi: parsers::field(bytes, 8, 30) as u32,
        stations,
        count,
    }
}

// The interrogation in these bytes, however many, or refusal 9: they end inside a needed field.
pub fn parse(bytes: &[u8]) -> Result<Interrogation, Refusal>
    ensures { Interrogates bytes.now result }
{
    // The head, the first station's number and the type of its first message are needed.
    if parsers::remaining_bits(bytes, 40) < 36 {
        return Err(Refusal::Short);
    }
    let (first, next) = Station::parse(bytes, 40);
    if parsers::remaining_bits(bytes, next) < 30 {
        return Ok(headed(bytes, [first, Station::none()], 1));
    }
    let (second, end) = Station::parse(bytes, next);
    // The two bits after a second station are needed, and with them all before.
    if parsers::remaining_bits(bytes, end) < 2 {
        return Err(Refusal::Short);
    }
    Ok(headed(bytes, [first, second], 2))
}
