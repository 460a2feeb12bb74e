// What is said at the end of the inputs, for people: what the record still holds of a message; and counts of lines by what was answered: all lines, complete
// messages by type, unfinished ones, refused ones by number.
#![tactic(auto)]

ghost use Rattle.std.specs.Prelude.{◌≡◌};
ghost use Rattle.text_out.specs.Output.{Puts};
ghost use Rattle.summary.specs.Tally.{another_kind, the_one_more, bumped, counted_of};
ghost use Rattle.record_bytes.specs.Bytes.{loaded_of};
ghost use Rattle.summary.specs.Summary.{summary_of};
ghost use Rattle.summary.specs.Unfinished.{number_text, held_text, unfinished_text, end_text};

use face_rows::Row::{Put, Words};
use face_rows::Test::{Always, Least};
use face_rows::{Row, Value};
use text_out::Output;

// Places of the counts, by their names in specs/Tally and specs/Summary; a refusal's is its number.
const ALL_LINES: usize = 0;

const UNFINISHED: usize = 100;

const ANOTHER_KIND: usize = 101;

const TYPE_1: usize = 129;

const TYPE_2: usize = 130;

const TYPE_3: usize = 131;

const TYPE_15: usize = 143;

const TYPE_24: usize = 152;

// The counts as text, row by row.
const SUMMARY: &[Row] = &[
    Put(Always, b"lines: ", Value::Number(ALL_LINES)),
    Put(Least(TYPE_1, 1), b"\ntype 1: ", Value::Number(TYPE_1)),
    Put(Least(TYPE_2, 1), b"\ntype 2: ", Value::Number(TYPE_2)),
    Put(Least(TYPE_3, 1), b"\ntype 3: ", Value::Number(TYPE_3)),
    Put(Least(TYPE_15, 1), b"\ntype 15: ", Value::Number(TYPE_15)),
    Put(Least(TYPE_24, 1), b"\ntype 24: ", Value::Number(TYPE_24)),
    Put(
        Least(UNFINISHED, 1),
        b"\nunfinished: ",
        Value::Number(UNFINISHED),
    ),
    Put(
        Least(1, 1),
        b"\nrefused 1, line over 1024 bytes: ",
        Value::Number(1),
    ),
    Put(
        Least(2, 1),
        b"\nrefused 2, line breaks the line rules: ",
        Value::Number(2),
    ),
    Put(
        Least(ANOTHER_KIND, 1),
        b"\n  of these NMEA sentences of another kind: ",
        Value::Number(ANOTHER_KIND),
    ),
    Put(
        Least(3, 1),
        b"\nrefused 3, checksum differs: ",
        Value::Number(3),
    ),
    Put(
        Least(4, 1),
        b"\nrefused 4, message number differs from the one before: ",
        Value::Number(4),
    ),
    Put(
        Least(5, 1),
        b"\nrefused 5, fragment number is not the next one: ",
        Value::Number(5),
    ),
    Put(
        Least(6, 1),
        b"\nrefused 6, payload over 384 bytes: ",
        Value::Number(6),
    ),
    Put(
        Least(7, 1),
        b"\nrefused 7, fill over 5, or fill with empty data: ",
        Value::Number(7),
    ),
    Put(
        Least(8, 1),
        b"\nrefused 8, byte cannot be unarmored: ",
        Value::Number(8),
    ),
    Put(
        Least(9, 1),
        b"\nrefused 9, message ends inside a needed field: ",
        Value::Number(9),
    ),
    Put(
        Least(10, 1),
        b"\nrefused 10, message type is not decoded: ",
        Value::Number(10),
    ),
    Put(
        Least(11, 1),
        b"\nrefused 11, message type is unknown: ",
        Value::Number(11),
    ),
    Put(
        Least(12, 1),
        b"\nrefused 12, a lent output is too small: ",
        Value::Number(12),
    ),
    Put(
        Least(13, 1),
        b"\nrefused 13, request outside the writer's limits: ",
        Value::Number(13),
    ),
    Words(Always, b"\n"),
];

// Counts a line by the layout's code, and a complete message by its type.
pub fn count(tally: &mut [u64], code: u64, kind: u64)
    ensures { tally.new ≡ counted_of tally.old code kind }
{
    bump(tally, 0);
    if code == 0 {
        if kind < 64 {
            bump(tally, 128 + kind as usize);
        }
        return;
    }
    if code <= 100 {
        bump(tally, code as usize);
    }
}

// Counts a line refused with 2, which `count` has counted, as a sentence of another kind.
pub fn count_other(tally: &mut [u64])
    ensures { tally.new ≡ bumped tally.old another_kind }
{
    bump(tally, 101);
}

// One more at a place.
fn bump(tally: &mut [u64], place: usize)
    ensures { tally.new ≡ bumped tally.old place }
{
    if place < tally.len() {
        tally[place] = one_more(tally[place]);
    }
}

// One more, but none more than the largest number.
fn one_more(n: u64) -> u64
    ensures { result ≡ the_one_more n }
{
    if n < 0xffff_ffff_ffff_ffff { n + 1 } else { n }
}

// The counts as text.
fn put_summary(out: &mut Output, tally: &[u64])
    ensures { Puts out.old out.new (summary_of tally.now) }
{
    face_rows::put_rows(out, SUMMARY, tally, b"");
}

// All that is said at the end: a message that is unfinished, and the counts where they are asked.
pub fn put_end(out: &mut Output, state: &[u8], counts: bool, tally: &[u64])
    ensures { Puts out.old out.new (end_text (loaded_of state.now) counts tally.now) }
{
    put_unfinished(out, state);
    if counts {
        put_summary(out, tally);
    }
}

// What the record still holds of a message, and nothing where it holds none.
fn put_unfinished(out: &mut Output, state: &[u8])
    ensures { Puts out.old out.new (unfinished_text (loaded_of state.now)) }
{
    let held = record_bytes::load(state);
    let id = held.message_id;
    put_held(out, id, held.fragment_number, held.len);
}

// What a record holds, by its message number, its fragment number and its length.
fn put_held(out: &mut Output, id: Option<u8>, number: u8, len: usize)
    ensures { Puts out.old out.new (held_text id number len) }
{
    if len == 0 {
        return;
    }
    out.put_bytes(b"unfinished message: ");
    put_id(out, id);
    out.put_bytes(b"lines so far: ");
    out.put_decimal(number as u64);
    out.put_bytes(b", characters: ");
    out.put_decimal(len as u64);
    out.put_byte(10);
}

// A message number, where there is one.
fn put_id(out: &mut Output, id: Option<u8>)
    ensures { Puts out.old out.new (number_text id) }
{
    match id {
        None => {}
        Some(n) => put_number(out, n as u64),
    }
}

// A number after its name.
fn put_number(out: &mut Output, n: u64)
    ensures { Puts out.old out.new (number_text (Some n)) }
{
    out.put_bytes(b"number ");
    out.put_decimal(n);
    out.put_bytes(b", ");
}
