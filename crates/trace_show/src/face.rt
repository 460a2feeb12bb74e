// What an answer tells, in the words of the comparing protocol: tables over its layout.
ghost use Rattle.std.specs.Prelude.{◌≡◌};
ghost use Rattle.text_out.specs.Output.{Puts};
ghost use Rattle.face_rows.specs.Rows.{printed};
ghost use Rattle.trace_show.specs.Tables.{sentence_table, refusal_table};
ghost use Rattle.trace_show.specs.Message.{message_words};

use face_rows::Row;
use face_rows::Row::{Group, Put, Words};
use face_rows::Test::{Always, Is, IsNot, Least};
use face_rows::Value::{Hexed, Number, Pattern, Signed};
use face_rows::places::{
    ACCURACY, CALLSIGN_LENGTH, CALLSIGN_START, CHANNEL, CHANNEL_THERE, CODE, COURSE, COURSE_RAW,
    COURSE_THERE, CRATE_TYPE, DIRECTION, FILL, FIRST_MESSAGES, FIRST_MMSI, FIRST_OFFSET_THERE1,
    FIRST_OFFSET_THERE2, FIRST_OFFSET1, FIRST_OFFSET2, FIRST_TYPE1, FIRST_TYPE2, FIRST_VALUE,
    FRAGMENT, HEADING, HEADING_THERE, ID, ID_THERE, INCREMENT, KEEP, KIND, LATITUDE, LATITUDE_RAW,
    LATITUDE_THERE, LONGITUDE, LONGITUDE_RAW, LONGITUDE_THERE, MANOEUVRE, MINUTE, MMSI, MODEL,
    MODEL_TEXT_LENGTH, MODEL_TEXT_START, NAME_LENGTH, NAME_START, PART, RADIO_KIND, RAIM, RATE,
    RATE_THERE, REPEAT, REPORT, SECOND, SECOND_MESSAGES, SECOND_MMSI, SECOND_OFFSET_THERE1,
    SECOND_OFFSET_THERE2, SECOND_OFFSET1, SECOND_OFFSET2, SECOND_TYPE1, SECOND_TYPE2, SECOND_VALUE,
    SENT_BITS, SERIAL, SHIP_TYPE, SLOTS, SPEED, SPEED_RAW, SPEED_THERE, STATIONS, STATUS, SUB,
    SUB_KIND, SYNC, TALKER, TIMEOUT, TO_BOW, TO_PORT, TO_STARBOARD, TO_STERN, TOTAL, TRUE_TYPE,
    TRUE_TYPE_THERE, TURN, TURN_THERE, TYPE, VALUE_COUNT, VENDOR_LENGTH, VENDOR_START,
};
use text_out::Output;

// Of a line that was taken.
const SENTENCE: &[Row] = &[
    Words(Is(TALKER, 0), b" Unknown"),
    Words(Is(TALKER, 1), b" AB"),
    Words(Is(TALKER, 2), b" AD"),
    Words(Is(TALKER, 3), b" AI"),
    Words(Is(TALKER, 4), b" AN"),
    Words(Is(TALKER, 5), b" AR"),
    Words(Is(TALKER, 6), b" AS"),
    Words(Is(TALKER, 7), b" AT"),
    Words(Is(TALKER, 8), b" AX"),
    Words(Is(TALKER, 9), b" BS"),
    Words(Is(TALKER, 10), b" SA"),
    Words(Is(REPORT, 0), b" Unknown"),
    Words(Is(REPORT, 1), b" VDM"),
    Words(Is(REPORT, 2), b" VDO"),
    Put(Always, b" ", Number(TOTAL)),
    Put(Always, b" ", Number(FRAGMENT)),
    Put(Is(ID_THERE, 1), b" ", Number(ID)),
    Words(IsNot(ID_THERE, 1), b" -"),
    Put(Is(CHANNEL_THERE, 1), b" ", Number(CHANNEL)),
    Words(IsNot(CHANNEL_THERE, 1), b" -"),
    Put(Always, b" ", Number(FILL)),
    Put(Always, b" ", Number(CRATE_TYPE)),
    Put(Is(TRUE_TYPE_THERE, 1), b" ", Number(TRUE_TYPE)),
    Words(IsNot(TRUE_TYPE_THERE, 1), b" -"),
    Put(Always, b" ", Number(SENT_BITS)),
];

// A refusal.
const REFUSAL: &[Row] = &[
    Put(Always, b"refused ", Number(CODE)),
    Put(Least(VALUE_COUNT, 1), b" ", Number(FIRST_VALUE)),
    Put(Least(VALUE_COUNT, 2), b" ", Number(SECOND_VALUE)),
];

// A position report.
const POSITION: &[Row] = &[
    Put(Always, b"position ", Number(TYPE)),
    Put(Always, b" ", Number(REPEAT)),
    Put(Always, b" ", Number(MMSI)),
    Put(IsNot(STATUS, 15), b" ", Number(STATUS)),
    Words(Is(STATUS, 15), b" -"),
    Put(Is(TURN_THERE, 1), b" ", Signed(TURN)),
    Words(IsNot(TURN_THERE, 1), b" -"),
    Put(Is(RATE_THERE, 1), b" ", Pattern(RATE)),
    Words(IsNot(RATE_THERE, 1), b" -"),
    Words(Is(DIRECTION, 0), b" -"),
    Words(Is(DIRECTION, 1), b" port"),
    Words(Is(DIRECTION, 2), b" starboard"),
    Put(Always, b" ", Number(SPEED_RAW)),
    Put(Is(SPEED_THERE, 1), b" ", Pattern(SPEED)),
    Words(IsNot(SPEED_THERE, 1), b" -"),
    Put(Always, b" ", Number(ACCURACY)),
    Put(Always, b" ", Signed(LONGITUDE_RAW)),
    Put(Is(LONGITUDE_THERE, 1), b" ", Pattern(LONGITUDE)),
    Words(IsNot(LONGITUDE_THERE, 1), b" -"),
    Put(Always, b" ", Signed(LATITUDE_RAW)),
    Put(Is(LATITUDE_THERE, 1), b" ", Pattern(LATITUDE)),
    Words(IsNot(LATITUDE_THERE, 1), b" -"),
    Put(Always, b" ", Number(COURSE_RAW)),
    Put(Is(COURSE_THERE, 1), b" ", Pattern(COURSE)),
    Words(IsNot(COURSE_THERE, 1), b" -"),
    Put(Is(HEADING_THERE, 1), b" ", Number(HEADING)),
    Words(IsNot(HEADING_THERE, 1), b" -"),
    Put(Always, b" ", Number(SECOND)),
    Put(IsNot(MANOEUVRE, 0), b" ", Number(MANOEUVRE)),
    Words(Is(MANOEUVRE, 0), b" -"),
    Put(Always, b" ", Number(RAIM)),
    Group(Is(RADIO_KIND, 1), 7),
    Put(Always, b" sotdma ", Number(SYNC)),
    Put(Always, b" ", Number(TIMEOUT)),
    Put(Is(SUB_KIND, 1), b" offset ", Number(SUB)),
    Put(Is(SUB_KIND, 2), b" utc ", Number(SUB)),
    Put(Is(SUB_KIND, 2), b" ", Number(MINUTE)),
    Put(Is(SUB_KIND, 3), b" slot ", Number(SUB)),
    Put(Is(SUB_KIND, 4), b" stations ", Number(SUB)),
    Group(Is(RADIO_KIND, 2), 4),
    Put(Always, b" itdma ", Number(SYNC)),
    Put(Always, b" ", Number(INCREMENT)),
    Put(Always, b" ", Number(SLOTS)),
    Put(Always, b" ", Number(KEEP)),
];

// A static data report.
const STATIC: &[Row] = &[
    Words(Is(PART, 0), b"name"),
    Words(Is(PART, 1), b"craft"),
    Words(Least(PART, 2), b"part"),
    Put(Always, b" ", Number(REPEAT)),
    Put(Always, b" ", Number(MMSI)),
    Put(Is(PART, 0), b" ", Hexed(NAME_LENGTH, NAME_START)),
    Group(Is(PART, 1), 10),
    Put(Always, b" ", Number(SHIP_TYPE)),
    Put(Always, b" ", Hexed(VENDOR_LENGTH, VENDOR_START)),
    Put(Always, b" ", Hexed(MODEL_TEXT_LENGTH, MODEL_TEXT_START)),
    Put(Always, b" ", Number(MODEL)),
    Put(Always, b" ", Number(SERIAL)),
    Put(Always, b" ", Hexed(CALLSIGN_LENGTH, CALLSIGN_START)),
    Put(Always, b" ", Number(TO_BOW)),
    Put(Always, b" ", Number(TO_STERN)),
    Put(Always, b" ", Number(TO_PORT)),
    Put(Always, b" ", Number(TO_STARBOARD)),
    Put(Least(PART, 2), b" ", Number(PART)),
];

// An interrogation.
const ASKED: &[Row] = &[
    Put(Always, b"interrogation ", Number(REPEAT)),
    Put(Always, b" ", Number(MMSI)),
    Put(Always, b" ", Number(STATIONS)),
    Group(Least(STATIONS, 1), 10),
    Put(Always, b" ", Number(FIRST_MMSI)),
    Put(Always, b" ", Number(FIRST_MESSAGES)),
    Group(Least(FIRST_MESSAGES, 1), 3),
    Put(Always, b" ", Number(FIRST_TYPE1)),
    Put(Is(FIRST_OFFSET_THERE1, 1), b" ", Number(FIRST_OFFSET1)),
    Words(IsNot(FIRST_OFFSET_THERE1, 1), b" -"),
    Group(Least(FIRST_MESSAGES, 2), 3),
    Put(Always, b" ", Number(FIRST_TYPE2)),
    Put(Is(FIRST_OFFSET_THERE2, 1), b" ", Number(FIRST_OFFSET2)),
    Words(IsNot(FIRST_OFFSET_THERE2, 1), b" -"),
    Group(Least(STATIONS, 2), 10),
    Put(Always, b" ", Number(SECOND_MMSI)),
    Put(Always, b" ", Number(SECOND_MESSAGES)),
    Group(Least(SECOND_MESSAGES, 1), 3),
    Put(Always, b" ", Number(SECOND_TYPE1)),
    Put(Is(SECOND_OFFSET_THERE1, 1), b" ", Number(SECOND_OFFSET1)),
    Words(IsNot(SECOND_OFFSET_THERE1, 1), b" -"),
    Group(Least(SECOND_MESSAGES, 2), 3),
    Put(Always, b" ", Number(SECOND_TYPE2)),
    Put(Is(SECOND_OFFSET_THERE2, 1), b" ", Number(SECOND_OFFSET2)),
    Words(IsNot(SECOND_OFFSET_THERE2, 1), b" -"),
];

// No message.
const NONE: &[Row] = &[Words(Always, b"none")];

// A message, by its kind.
pub fn put_message(out: &mut Output, numbers: &[u64], texts: &[u8])
    ensures { Puts out.old out.new (message_words numbers.now texts.now) }
{
    // a kind is a number of the layout, as C callers have it
    let kind = face_rows::number_at(numbers, KIND);
    match kind {
        1 => face_rows::put_rows(out, POSITION, numbers, texts),
        2 => face_rows::put_rows(out, STATIC, numbers, texts),
        3 => face_rows::put_rows(out, ASKED, numbers, texts),
        _ => face_rows::put_rows(out, NONE, numbers, texts),
    }
}

// What is told of a line that was taken: a name for a table, as callers know no table.
pub fn put_sentence(out: &mut Output, numbers: &[u64], texts: &[u8])
    ensures { Puts out.old out.new (printed sentence_table numbers.now texts.now) }
{
    face_rows::put_rows(out, SENTENCE, numbers, texts);
}

// A refusal: a name for a table, as callers know no table.
pub fn put_refusal(out: &mut Output, numbers: &[u64], texts: &[u8])
    ensures { Puts out.old out.new (printed refusal_table numbers.now texts.now) }
{
    face_rows::put_rows(out, REFUSAL, numbers, texts);
}
