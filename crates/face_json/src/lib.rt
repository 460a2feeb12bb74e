// A complete message, and a refused line, as a line of JSON: tables over its layout, numbers and bytes of text.
#![tactic(auto)]

ghost use Rattle.std.specs.Prelude.{◌≡◌, ◌++◌, get_or};
ghost use Rattle.text_out.specs.Output.{Puts};
ghost use Rattle.face_rows.specs.Rows.{printed};
ghost use Rattle.face_rows.specs.Code.{rows_in};
ghost use Rattle.face_json.specs.Tables.{origin_table, head_table, status_members, motion_members, place_members, course_members};
ghost use Rattle.face_json.specs.Tables.{position_table};
ghost use Rattle.face_json.specs.Line.{table_of, message_line, refused_line};

use face_rows::Row;
use face_rows::Row::{Group, Put, Words};
use face_rows::Test::{Always, Below, Is, IsNot, Least};
use face_rows::Value::{Degrees, Float, Letter, Number, Pair, Quoted, Signed, Tenths};
use face_rows::places::{
    ACCURACY, ANOTHER_KIND, CALLSIGN_LENGTH, CALLSIGN_START, CHANNEL, CHANNEL_THERE, CODE,
    COURSE_RAW, COURSE_THERE, FIRST_MESSAGES, FIRST_MMSI, FIRST_OFFSET_THERE1, FIRST_OFFSET_THERE2,
    FIRST_OFFSET1, FIRST_OFFSET2, FIRST_TYPE1, FIRST_TYPE2, FIRST_VALUE, HEADING, HEADING_THERE,
    KIND, LATITUDE_RAW, LATITUDE_THERE, LINE, LONGITUDE_RAW, LONGITUDE_THERE, MANOEUVRE, MMSI,
    MODEL, MODEL_TEXT_LENGTH, MODEL_TEXT_START, NAME_LENGTH, NAME_START, PART, RADIO, RAIM, RATE,
    RATE_THERE, REPEAT, REPORT, SECOND, SECOND_MESSAGES, SECOND_MMSI, SECOND_OFFSET_THERE1,
    SECOND_OFFSET_THERE2, SECOND_OFFSET1, SECOND_OFFSET2, SECOND_TYPE1, SECOND_TYPE2, SECOND_VALUE,
    SENDER, SENDER_THERE, SERIAL, SHIP_TYPE, SPEED_RAW, SPEED_THERE, STATIONS, STATUS, TALKER,
    TEXT_CUT, TEXT_LENGTH, TEXT_START, TO_BOW, TO_PORT, TO_STARBOARD, TO_STERN, TURN, TURN_THERE,
    TYPE, VALUE_COUNT, VENDOR_LENGTH, VENDOR_START,
};
use text_out::Output;

// A message that tells nothing.
const NOTHING: &[Row] = &[
    Put(Always, b"{\"class\":\"AIS\",\"line\":", Number(LINE)),
    Words(Always, b"}\n"),
];

// The line's talker and report type.
const ORIGIN: &[Row] = &[
    Words(Is(TALKER, 3), b",\"talker\":\"AI\""),
    Group(IsNot(TALKER, 3), 10),
    Words(Is(TALKER, 0), b",\"talker\":null"),
    Words(Is(TALKER, 1), b",\"talker\":\"AB\""),
    Words(Is(TALKER, 2), b",\"talker\":\"AD\""),
    Words(Is(TALKER, 4), b",\"talker\":\"AN\""),
    Words(Is(TALKER, 5), b",\"talker\":\"AR\""),
    Words(Is(TALKER, 6), b",\"talker\":\"AS\""),
    Words(Is(TALKER, 7), b",\"talker\":\"AT\""),
    Words(Is(TALKER, 8), b",\"talker\":\"AX\""),
    Words(Is(TALKER, 9), b",\"talker\":\"BS\""),
    Words(Is(TALKER, 10), b",\"talker\":\"SA\""),
    Words(Is(REPORT, 1), b",\"report\":\"VDM\""),
    Group(IsNot(REPORT, 1), 2),
    Words(Is(REPORT, 0), b",\"report\":null"),
    Words(Is(REPORT, 2), b",\"report\":\"VDO\""),
];

// What is last in a position report.
const LAST: &[Row] = &[
    Put(IsNot(MANOEUVRE, 0), b",\"maneuver\":", Number(MANOEUVRE)),
    Words(Is(MANOEUVRE, 0), b",\"maneuver\":null"),
    Words(Is(RAIM, 1), b",\"raim\":true"),
    Words(IsNot(RAIM, 1), b",\"raim\":false"),
    Put(Always, b",\"radio\":", Number(RADIO)),
    Words(Always, b"}\n"),
];

// Of part 1 of a static data report, after what every message has.
const CRAFT_BODY: &[Row] = &[
    Put(Always, b",\"partno\":", Number(PART)),
    Put(Always, b",\"shiptype\":", Number(SHIP_TYPE)),
    Words(Below(SHIP_TYPE, 100), b",\"shiptype_text\":\""),
    Words(Is(SHIP_TYPE, 0), b"Not available (default)"),
    Group(Least(SHIP_TYPE, 1), 2),
    Group(Below(SHIP_TYPE, 20), 1),
    Words(Always, b"Reserved for future use"),
    Group(Least(SHIP_TYPE, 20), 11),
    Group(Below(SHIP_TYPE, 30), 10),
    Words(Always, b"Wing in ground (WIG)"),
    Words(Is(SHIP_TYPE, 20), b", all ships of this type"),
    Words(Is(SHIP_TYPE, 21), b", Hazardous category A"),
    Words(Is(SHIP_TYPE, 22), b", Hazardous category B"),
    Words(Is(SHIP_TYPE, 23), b", Hazardous category C"),
    Words(Is(SHIP_TYPE, 24), b", Hazardous category D"),
    Group(Least(SHIP_TYPE, 25), 2),
    Group(Below(SHIP_TYPE, 29), 1),
    Words(Always, b", Reserved for future use"),
    Words(Is(SHIP_TYPE, 29), b", Reserved for future use"),
    Group(Least(SHIP_TYPE, 30), 11),
    Group(Below(SHIP_TYPE, 40), 10),
    Words(Is(SHIP_TYPE, 30), b"Fishing"),
    Words(Is(SHIP_TYPE, 31), b"Towing"),
    Words(
        Is(SHIP_TYPE, 32),
        b"Towing: length exceeds 200m or breadth exceeds 25m",
    ),
    Words(Is(SHIP_TYPE, 33), b"Dredging or underwater ops"),
    Words(Is(SHIP_TYPE, 34), b"Diving ops"),
    Words(Is(SHIP_TYPE, 35), b"Military ops"),
    Words(Is(SHIP_TYPE, 36), b"Sailing"),
    Words(Is(SHIP_TYPE, 37), b"Pleasure Craft"),
    Words(Is(SHIP_TYPE, 38), b"Reserved"),
    Words(Is(SHIP_TYPE, 39), b"Reserved"),
    Group(Least(SHIP_TYPE, 40), 11),
    Group(Below(SHIP_TYPE, 50), 10),
    Words(Always, b"High speed craft (HSC)"),
    Words(Is(SHIP_TYPE, 40), b", all ships of this type"),
    Words(Is(SHIP_TYPE, 41), b", Hazardous category A"),
    Words(Is(SHIP_TYPE, 42), b", Hazardous category B"),
    Words(Is(SHIP_TYPE, 43), b", Hazardous category C"),
    Words(Is(SHIP_TYPE, 44), b", Hazardous category D"),
    Group(Least(SHIP_TYPE, 45), 2),
    Group(Below(SHIP_TYPE, 49), 1),
    Words(Always, b", Reserved for future use"),
    Words(Is(SHIP_TYPE, 49), b", No additional information"),
    Group(Least(SHIP_TYPE, 50), 11),
    Group(Below(SHIP_TYPE, 60), 10),
    Words(Is(SHIP_TYPE, 50), b"Pilot Vessel"),
    Words(Is(SHIP_TYPE, 51), b"Search and Rescue vessel"),
    Words(Is(SHIP_TYPE, 52), b"Tug"),
    Words(Is(SHIP_TYPE, 53), b"Port Tender"),
    Words(Is(SHIP_TYPE, 54), b"Anti-pollution equipment"),
    Words(Is(SHIP_TYPE, 55), b"Law Enforcement"),
    Words(Is(SHIP_TYPE, 56), b"Spare - Local Vessel"),
    Words(Is(SHIP_TYPE, 57), b"Spare - Local Vessel"),
    Words(Is(SHIP_TYPE, 58), b"Medical Transport"),
    Words(
        Is(SHIP_TYPE, 59),
        b"Noncombatant ship according to RR Resolution No. 18",
    ),
    Group(Least(SHIP_TYPE, 60), 11),
    Group(Below(SHIP_TYPE, 70), 10),
    Words(Always, b"Passenger"),
    Words(Is(SHIP_TYPE, 60), b", all ships of this type"),
    Words(Is(SHIP_TYPE, 61), b", Hazardous category A"),
    Words(Is(SHIP_TYPE, 62), b", Hazardous category B"),
    Words(Is(SHIP_TYPE, 63), b", Hazardous category C"),
    Words(Is(SHIP_TYPE, 64), b", Hazardous category D"),
    Group(Least(SHIP_TYPE, 65), 2),
    Group(Below(SHIP_TYPE, 69), 1),
    Words(Always, b", Reserved for future use"),
    Words(Is(SHIP_TYPE, 69), b", No additional information"),
    Group(Least(SHIP_TYPE, 70), 11),
    Group(Below(SHIP_TYPE, 80), 10),
    Words(Always, b"Cargo"),
    Words(Is(SHIP_TYPE, 70), b", all ships of this type"),
    Words(Is(SHIP_TYPE, 71), b", Hazardous category A"),
    Words(Is(SHIP_TYPE, 72), b", Hazardous category B"),
    Words(Is(SHIP_TYPE, 73), b", Hazardous category C"),
    Words(Is(SHIP_TYPE, 74), b", Hazardous category D"),
    Group(Least(SHIP_TYPE, 75), 2),
    Group(Below(SHIP_TYPE, 79), 1),
    Words(Always, b", Reserved for future use"),
    Words(Is(SHIP_TYPE, 79), b", No additional information"),
    Group(Least(SHIP_TYPE, 80), 11),
    Group(Below(SHIP_TYPE, 90), 10),
    Words(Always, b"Tanker"),
    Words(Is(SHIP_TYPE, 80), b", all ships of this type"),
    Words(Is(SHIP_TYPE, 81), b", Hazardous category A"),
    Words(Is(SHIP_TYPE, 82), b", Hazardous category B"),
    Words(Is(SHIP_TYPE, 83), b", Hazardous category C"),
    Words(Is(SHIP_TYPE, 84), b", Hazardous category D"),
    Group(Least(SHIP_TYPE, 85), 2),
    Group(Below(SHIP_TYPE, 89), 1),
    Words(Always, b", Reserved for future use"),
    Words(Is(SHIP_TYPE, 89), b", No additional information"),
    Group(Least(SHIP_TYPE, 90), 11),
    Group(Below(SHIP_TYPE, 100), 10),
    Words(Always, b"Other Type"),
    Words(Is(SHIP_TYPE, 90), b", all ships of this type"),
    Words(Is(SHIP_TYPE, 91), b", Hazardous category A"),
    Words(Is(SHIP_TYPE, 92), b", Hazardous category B"),
    Words(Is(SHIP_TYPE, 93), b", Hazardous category C"),
    Words(Is(SHIP_TYPE, 94), b", Hazardous category D"),
    Group(Least(SHIP_TYPE, 95), 2),
    Group(Below(SHIP_TYPE, 99), 1),
    Words(Always, b", Reserved for future use"),
    Words(Is(SHIP_TYPE, 99), b", no additional information"),
    Words(Below(SHIP_TYPE, 100), b"\""),
    Words(Least(SHIP_TYPE, 100), b",\"shiptype_text\":null"),
    Put(
        Always,
        b",\"vendorid\":",
        Quoted(VENDOR_LENGTH, VENDOR_START),
    ),
    Put(Always, b",\"model\":", Number(MODEL)),
    Put(Always, b",\"serial\":", Number(SERIAL)),
    Put(
        Always,
        b",\"model_serial\":",
        Quoted(MODEL_TEXT_LENGTH, MODEL_TEXT_START),
    ),
    Put(
        Always,
        b",\"callsign\":",
        Quoted(CALLSIGN_LENGTH, CALLSIGN_START),
    ),
    Put(Always, b",\"to_bow\":", Number(TO_BOW)),
    Put(Always, b",\"to_stern\":", Number(TO_STERN)),
    Put(Always, b",\"to_port\":", Number(TO_PORT)),
    Put(Always, b",\"to_starboard\":", Number(TO_STARBOARD)),
    Words(Always, b"}\n"),
];

// Of its other parts.
const STATIC_BODY: &[Row] = &[
    Put(Always, b",\"partno\":", Number(PART)),
    Put(
        Is(PART, 0),
        b",\"shipname\":",
        Quoted(NAME_LENGTH, NAME_START),
    ),
    Words(Always, b"}\n"),
];

// Of an interrogation.
const ASKED_BODY: &[Row] = &[
    Put(Least(STATIONS, 1), b",\"mmsi1\":", Number(FIRST_MMSI)),
    Words(Below(STATIONS, 1), b",\"mmsi1\":null"),
    Put(
        Least(FIRST_MESSAGES, 1),
        b",\"type1_1\":",
        Number(FIRST_TYPE1),
    ),
    Words(Below(FIRST_MESSAGES, 1), b",\"type1_1\":null"),
    Put(
        Is(FIRST_OFFSET_THERE1, 1),
        b",\"offset1_1\":",
        Number(FIRST_OFFSET1),
    ),
    Words(IsNot(FIRST_OFFSET_THERE1, 1), b",\"offset1_1\":null"),
    Put(
        Least(FIRST_MESSAGES, 2),
        b",\"type1_2\":",
        Number(FIRST_TYPE2),
    ),
    Words(Below(FIRST_MESSAGES, 2), b",\"type1_2\":null"),
    Put(
        Is(FIRST_OFFSET_THERE2, 1),
        b",\"offset1_2\":",
        Number(FIRST_OFFSET2),
    ),
    Words(IsNot(FIRST_OFFSET_THERE2, 1), b",\"offset1_2\":null"),
    Put(Least(STATIONS, 2), b",\"mmsi2\":", Number(SECOND_MMSI)),
    Words(Below(STATIONS, 2), b",\"mmsi2\":null"),
    Put(
        Least(SECOND_MESSAGES, 1),
        b",\"type2_1\":",
        Number(SECOND_TYPE1),
    ),
    Words(Below(SECOND_MESSAGES, 1), b",\"type2_1\":null"),
    Put(
        Is(SECOND_OFFSET_THERE1, 1),
        b",\"offset2_1\":",
        Number(SECOND_OFFSET1),
    ),
    Words(IsNot(SECOND_OFFSET_THERE1, 1), b",\"offset2_1\":null"),
    Put(
        Least(SECOND_MESSAGES, 2),
        b",\"type2_2\":",
        Number(SECOND_TYPE2),
    ),
    Words(Below(SECOND_MESSAGES, 2), b",\"type2_2\":null"),
    Put(
        Is(SECOND_OFFSET_THERE2, 1),
        b",\"offset2_2\":",
        Number(SECOND_OFFSET2),
    ),
    Words(IsNot(SECOND_OFFSET_THERE2, 1), b",\"offset2_2\":null"),
    Words(Always, b"}\n"),
];

// A refused line.
const REFUSED: &[Row] = &[
    Words(Always, b"{\"class\":\"ERROR\""),
    Put(Always, b",\"line\":", Number(LINE)),
    Put(Always, b",\"refusal\":", Number(CODE)),
    Words(Always, b",\"values\":["),
    Put(Least(VALUE_COUNT, 1), b"", Number(FIRST_VALUE)),
    Put(Least(VALUE_COUNT, 2), b",", Number(SECOND_VALUE)),
    Words(Always, b"]"),
    Put(Is(CODE, 3), b",\"checksum\":\"", Pair(FIRST_VALUE)),
    Put(Is(CODE, 3), b"\",\"computed\":\"", Pair(SECOND_VALUE)),
    Words(Is(CODE, 3), b"\""),
    Put(Is(CODE, 10), b",\"type\":", Number(FIRST_VALUE)),
    Put(Is(SENDER_THERE, 1), b",\"mmsi\":", Number(SENDER)),
    Words(Always, b",\"message\":\""),
    Words(Is(ANOTHER_KIND, 1), b"NMEA sentence of another kind"),
    Group(IsNot(ANOTHER_KIND, 1), 13),
    Words(Is(CODE, 1), b"line over 1024 bytes"),
    Words(Is(CODE, 2), b"line breaks the line rules"),
    Words(Is(CODE, 3), b"checksum differs"),
    Words(Is(CODE, 4), b"message number differs from the one before"),
    Words(Is(CODE, 5), b"fragment number is not the next one"),
    Words(Is(CODE, 6), b"payload over 384 bytes"),
    Words(Is(CODE, 7), b"fill over 5, or fill with empty data"),
    Words(Is(CODE, 8), b"byte cannot be unarmored"),
    Words(Is(CODE, 9), b"message ends inside a needed field"),
    Words(Is(CODE, 10), b"message type is not decoded"),
    Words(Is(CODE, 11), b"message type is unknown"),
    Words(Is(CODE, 12), b"a lent output is too small"),
    Words(Is(CODE, 13), b"request outside the writer's limits"),
    Words(Always, b"\""),
    Put(Always, b",\"text\":", Quoted(TEXT_LENGTH, TEXT_START)),
    Words(Is(TEXT_CUT, 1), b",\"text_cut\":true"),
    Words(Always, b"}\n"),
];

// The line of a complete message, by its kind. `trace_show::face` has one over tables alone; here the code puts most, so that one for both would be no plainer.
pub fn put_message(out: &mut Output, numbers: &[u64], texts: &[u8])
    ensures { Puts out.old out.new (message_line numbers.now texts.now) }
{
    // a kind is a number of the layout, as C callers have it
    let kind = face_rows::number_at(numbers, KIND);
    match kind {
        1 => put_position(out, numbers, texts),
        2 => put_part(out, numbers, texts),
        3 => put_body(out, ASKED_BODY, numbers, texts),
        _ => face_rows::put_rows(out, NOTHING, numbers, texts),
    }
}

// The line of a refused one: a name for a table, as callers know no table.
pub fn put_refused(out: &mut Output, numbers: &[u64], texts: &[u8])
    ensures { Puts out.old out.new (refused_line numbers.now texts.now) }
{
    face_rows::put_rows(out, REFUSED, numbers, texts);
}

// A position report.
fn put_position(out: &mut Output, numbers: &[u64], texts: &[u8])
    ensures { Puts out.old out.new (printed position_table numbers.now texts.now) }
{
    put_head(out, numbers, texts);
    put_status(out, numbers, texts);
    put_motion(out, numbers, texts);
    put_place(out, numbers, texts);
    put_course(out, numbers, texts);
    // what is last is put by its table: a further member is a row there
    face_rows::put_rows(out, LAST, numbers, texts);
}

// What every message has.
fn put_head(out: &mut Output, numbers: &[u64], texts: &[u8])
    ensures { Puts out.old out.new (printed head_table numbers.now texts.now) }
{
    out.put_bytes(b"{\"class\":\"AIS\",\"line\":");
    face_rows::put_value(out, Number(LINE), numbers, texts);
    put_origin(out, numbers, texts);
    out.put_bytes(b",\"channel\":");
    face_members::value_or_null(out, numbers, texts, CHANNEL_THERE, Letter(CHANNEL));
    out.put_bytes(b",\"type\":");
    face_rows::put_value(out, Number(TYPE), numbers, texts);
    out.put_bytes(b",\"repeat\":");
    face_rows::put_value(out, Number(REPEAT), numbers, texts);
    out.put_bytes(b",\"mmsi\":");
    face_rows::put_value(out, Number(MMSI), numbers, texts);
}

// The line's talker and report type; most are AI and VDM.
fn put_origin(out: &mut Output, numbers: &[u64], texts: &[u8])
    ensures { Puts out.old out.new (printed origin_table numbers.now texts.now) }
{
    let talker = face_rows::number_at(numbers, TALKER);
    let report = face_rows::number_at(numbers, REPORT);
    if talker == 3 {
        if report == 1 {
            out.put_bytes(b",\"talker\":\"AI\",\"report\":\"VDM\"");
            return;
        }
    }
    face_rows::put_rows(out, ORIGIN, numbers, texts);
}

// Of a position report: its status.
fn put_status(out: &mut Output, numbers: &[u64], texts: &[u8])
    ensures { Puts out.old out.new (printed status_members numbers.now texts.now) }
{
    out.put_bytes(b",\"status\":");
    face_members::unless_null(out, numbers, STATUS, 15);
    out.put_bytes(b",\"status_text\":");
    face_members::put_words(out, numbers);
}

// Its rate of turn and its speed.
fn put_motion(out: &mut Output, numbers: &[u64], texts: &[u8])
    ensures { Puts out.old out.new (printed motion_members numbers.now texts.now) }
{
    out.put_bytes(b",\"turn\":");
    face_members::value_or_null(out, numbers, texts, TURN_THERE, Signed(TURN));
    out.put_bytes(b",\"turn_rate\":");
    face_members::value_or_null(out, numbers, texts, RATE_THERE, Float(RATE));
    out.put_bytes(b",\"speed\":");
    face_members::value_or_null(out, numbers, texts, SPEED_THERE, Tenths(SPEED_RAW));
    out.put_bytes(b",\"speed_raw\":");
    face_rows::put_value(out, Number(SPEED_RAW), numbers, texts);
}

// Its position.
fn put_place(out: &mut Output, numbers: &[u64], texts: &[u8])
    ensures { Puts out.old out.new (printed place_members numbers.now texts.now) }
{
    out.put_bytes(b",\"accuracy\":");
    face_members::put_flag(out, numbers, ACCURACY);
    out.put_bytes(b",\"lon\":");
    face_members::value_or_null(out, numbers, texts, LONGITUDE_THERE, Degrees(LONGITUDE_RAW));
    out.put_bytes(b",\"lon_raw\":");
    face_rows::put_value(out, Signed(LONGITUDE_RAW), numbers, texts);
    out.put_bytes(b",\"lat\":");
    face_members::value_or_null(out, numbers, texts, LATITUDE_THERE, Degrees(LATITUDE_RAW));
    out.put_bytes(b",\"lat_raw\":");
    face_rows::put_value(out, Signed(LATITUDE_RAW), numbers, texts);
}

// Its course and heading.
fn put_course(out: &mut Output, numbers: &[u64], texts: &[u8])
    ensures { Puts out.old out.new (printed course_members numbers.now texts.now) }
{
    out.put_bytes(b",\"course\":");
    face_members::value_or_null(out, numbers, texts, COURSE_THERE, Tenths(COURSE_RAW));
    out.put_bytes(b",\"course_raw\":");
    face_rows::put_value(out, Number(COURSE_RAW), numbers, texts);
    out.put_bytes(b",\"heading\":");
    face_members::value_or_null(out, numbers, texts, HEADING_THERE, Number(HEADING));
    out.put_bytes(b",\"second\":");
    face_rows::put_value(out, Number(SECOND), numbers, texts);
}

// A static data report, by its part.
fn put_part(out: &mut Output, numbers: &[u64], texts: &[u8])
    ensures { Puts out.old out.new (printed (table_of 2 (get_or numbers.now 20 0)) numbers.now texts.now) }
{
    // a part is a number of the layout, as C callers have it
    let part = face_rows::number_at(numbers, PART);
    match part {
        1 => put_body(out, CRAFT_BODY, numbers, texts),
        _ => put_body(out, STATIC_BODY, numbers, texts),
    }
}

// What every message has, and then the rows of its kind.
fn put_body(out: &mut Output, rows: &[Row], numbers: &[u64], texts: &[u8])
    ensures { Puts out.old out.new (printed (head_table ++ rows_in rows.now) numbers.now texts.now) }
{
    put_head(out, numbers, texts);
    face_rows::put_rows(out, rows, numbers, texts);
}
