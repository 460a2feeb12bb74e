// Places of an answer's layout, by their names in layout_numbers/specs/Places. Of what may be absent, the number before says whether it is there.

// A refusal's values.
pub const FIRST_VALUE: usize = 0;

pub const SECOND_VALUE: usize = 1;

// The sentence.
pub const TALKER: usize = 2;

pub const REPORT: usize = 3;

pub const TOTAL: usize = 4;

pub const FRAGMENT: usize = 5;

pub const ID_THERE: usize = 6;

pub const ID: usize = 7;

pub const CHANNEL_THERE: usize = 8;

pub const CHANNEL: usize = 9;

pub const FILL: usize = 10;

pub const CRATE_TYPE: usize = 11;

pub const TRUE_TYPE_THERE: usize = 12;

pub const TRUE_TYPE: usize = 13;

pub const PAYLOAD_LENGTH: usize = 14;

pub const SENT_BITS: usize = 15;

// The message: its kind, and its sender.
pub const KIND: usize = 16;

pub const TYPE: usize = 17;

pub const REPEAT: usize = 18;

pub const MMSI: usize = 19;

// Of a position report.
pub const STATUS: usize = 20;

pub const TURN_THERE: usize = 21;

pub const TURN: usize = 22;

pub const RATE_THERE: usize = 23;

pub const RATE: usize = 24;

pub const DIRECTION: usize = 25;

pub const SPEED_THERE: usize = 26;

pub const SPEED: usize = 27;

pub const SPEED_RAW: usize = 28;

pub const ACCURACY: usize = 29;

pub const LONGITUDE_THERE: usize = 30;

pub const LONGITUDE: usize = 31;

pub const LONGITUDE_RAW: usize = 32;

pub const LATITUDE_THERE: usize = 33;

pub const LATITUDE: usize = 34;

pub const LATITUDE_RAW: usize = 35;

pub const COURSE_THERE: usize = 36;

pub const COURSE: usize = 37;

pub const COURSE_RAW: usize = 38;

pub const HEADING_THERE: usize = 39;

pub const HEADING: usize = 40;

pub const SECOND: usize = 41;

pub const MANOEUVRE: usize = 42;

pub const RAIM: usize = 43;

// Of its radio status: 1 is SOTDMA, with a time-out, which of the four its sub-message is, and what that tells; 2 is ITDMA.
pub const RADIO_KIND: usize = 44;

pub const SYNC: usize = 45;

pub const TIMEOUT: usize = 46;

pub const SUB_KIND: usize = 47;

pub const SUB: usize = 48;

pub const MINUTE: usize = 49;

pub const INCREMENT: usize = 46;

pub const SLOTS: usize = 47;

pub const KEEP: usize = 48;

// Of a static data report: the part, what part 1 has, and the lengths of the texts.
pub const PART: usize = 20;

pub const SHIP_TYPE: usize = 21;

pub const MODEL: usize = 22;

pub const SERIAL: usize = 23;

pub const TO_BOW: usize = 24;

pub const TO_STERN: usize = 25;

pub const TO_PORT: usize = 26;

pub const TO_STARBOARD: usize = 27;

pub const NAME_LENGTH: usize = 28;

pub const VENDOR_LENGTH: usize = 29;

pub const MODEL_TEXT_LENGTH: usize = 30;

pub const CALLSIGN_LENGTH: usize = 31;

// Where the bytes of each begin, among the texts.
pub const NAME_START: usize = 0;

pub const VENDOR_START: usize = 20;

pub const MODEL_TEXT_START: usize = 40;

pub const CALLSIGN_START: usize = 60;

// Of an interrogation: how many stations are asked, and of each its MMSI, how many messages are asked of it, and their types and slot offsets.
pub const STATIONS: usize = 20;

pub const FIRST_MMSI: usize = 21;

pub const FIRST_MESSAGES: usize = 22;

pub const FIRST_TYPE1: usize = 23;

pub const FIRST_OFFSET_THERE1: usize = 24;

pub const FIRST_OFFSET1: usize = 25;

pub const FIRST_TYPE2: usize = 26;

pub const FIRST_OFFSET_THERE2: usize = 27;

pub const FIRST_OFFSET2: usize = 28;

pub const SECOND_MMSI: usize = 29;

pub const SECOND_MESSAGES: usize = 30;

pub const SECOND_TYPE1: usize = 31;

pub const SECOND_OFFSET_THERE1: usize = 32;

pub const SECOND_OFFSET1: usize = 33;

pub const SECOND_TYPE2: usize = 34;

pub const SECOND_OFFSET_THERE2: usize = 35;

pub const SECOND_OFFSET2: usize = 36;

// After the fifty.
pub const LINE: usize = 50;

pub const RADIO: usize = 51;

pub const CODE: usize = 52;

pub const VALUE_COUNT: usize = 53;

// Of a refused line: how long its text is among the texts, from their start on, and whether it was cut; whether its sender is told, and which it is;
// whether it is a sentence of another kind.
pub const TEXT_LENGTH: usize = 54;

pub const TEXT_CUT: usize = 55;

pub const SENDER_THERE: usize = 56;

pub const SENDER: usize = 57;

pub const ANOTHER_KIND: usize = 58;

pub const TEXT_START: usize = 0;
