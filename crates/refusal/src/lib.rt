// Why a call is refused (errors.rs): the thirteen refusals of document 01, one enum for every layer.
#![tactic(auto)]

ghost use Rattle.std.specs.Prelude.{◌≡◌, [], ◌∷◌};
ghost use Rattle.refusal.specs.Refusal.{row_of};
ghost use Rattle.refusal.specs.Values.{Returned, count_by};

// In document 01's order, from 1 to 13, with what is also returned.
#[derive(Clone, Copy)]
pub enum Refusal {
    LineTooLong,
    Line,
    Checksum { expected: u8, found: u8 },
    MessageNumber,
    FragmentNumber,
    PayloadTooLong,
    Fill,
    Armour { offset: usize },
    Short,
    OtherType { message_type: u8 },
    UnknownType { message_type: u8 },
    Room,
    Request,
}

impl Refusal {
    // Document 01's number of a refusal, for programs that print it.
    pub fn number(self) -> u8
        ensures { result ≡ (row_of self).number }
    {
        match self {
            Refusal::LineTooLong => 1,
            Refusal::Line => 2,
            Refusal::Checksum { .. } => 3,
            Refusal::MessageNumber => 4,
            Refusal::FragmentNumber => 5,
            Refusal::PayloadTooLong => 6,
            Refusal::Fill => 7,
            Refusal::Armour { .. } => 8,
            Refusal::Short => 9,
            Refusal::OtherType { .. } => 10,
            Refusal::UnknownType { .. } => 11,
            Refusal::Room => 12,
            Refusal::Request => 13,
        }
    }

    // The values of a refusal, for programs that print them.
    pub fn values(self) -> Values
        ensures { Returned (row_of self).values result }
    {
        match self {
            Refusal::Checksum { expected, found } => Values {
                count: 2,
                first: u64::from(expected),
                second: u64::from(found),
            },
            Refusal::Armour { offset } => Values::one(offset as u64),
            Refusal::OtherType { message_type } | Refusal::UnknownType { message_type } => {
                Values::one(u64::from(message_type))
            }
            _ => Values::NONE,
        }
    }
}

// What a refusal also returns: how many values there are, the first and the second, each 0 where there is none.
// Not an Option for each: these are the three numbers of the C interface.
#[derive(Clone, Copy)]
pub struct Values {
    pub count: u64,
    pub first: u64,
    pub second: u64,
}

impl Values {
    // No value.
    const NONE: Values = Values {
        count: 0,
        first: 0,
        second: 0,
    };

    // A single value.
    fn one(first: u64) -> Values
        ensures { Returned (first ∷ []) result }
    {
        Values {
            count: 1,
            first,
            second: 0,
        }
    }
}

// How many values a refusal of this number returns, for programs that hold its number alone.
pub fn count_of(number: u32) -> u64
    ensures { result ≡ count_by number }
{
    match number {
        3 => 2,
        8 | 10 | 11 => 1,
        _ => 0,
    }
}
