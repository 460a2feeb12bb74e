// A face of an answer: rows of a table, each a word and a value of the answer's layout, put one after the other.
#![tactic(auto)]

ghost use Rattle.std.specs.Prelude.{◌≡◌, ◌++◌, get_or, take, drop};
ghost use Rattle.text_out.specs.Output.{Puts};
ghost use Rattle.face_rows.specs.Rows.{holds, value_text, printed};
ghost use Rattle.face_rows.specs.Code.{test_in, value_in, rows_in};

pub mod places;

use text_out::Output;

// A test of the number at a place against a number.
#[derive(Clone, Copy)]
pub enum Test {
    Always,
    Is(usize, u64),
    IsNot(usize, u64),
    Least(usize, u64),
    Below(usize, u64),
}

// A value: of the number at a place, or of the text whose length is at a place and whose bytes start at another; or none, of which nothing is put.
#[derive(Clone, Copy)]
pub enum Value {
    Nothing,
    Number(usize),
    Signed(usize),
    Tenths(usize),
    Degrees(usize),
    Quoted(usize, usize),
    Hexed(usize, usize),
    Pattern(usize),
    Letter(usize),
    Pair(usize),
    Float(usize),
}

// A row of a table: a word, or a word and a value after it, put where a test holds; or a test on which so many rows after it depend.
#[derive(Clone, Copy)]
pub enum Row<'a> {
    Words(Test, &'a [u8]),
    Put(Test, &'a [u8], Value),
    Group(Test, usize),
}

// The rows of a table. Where a row's test does not hold, it is left out, and so are as many rows after it as it says.
pub fn put_rows(out: &mut Output, rows: &[Row], numbers: &[u64], texts: &[u8])
    ensures { Puts out.old out.new (printed (rows_in rows.now) numbers.now texts.now) }
{
    let mut skip = 0;
    for row in rows {
        if skip > 0 {
            skip -= 1;
            continue;
        }
        match *row {
            Row::Words(when, word) => {
                if holds(numbers, when) {
                    out.put_bytes(word);
                }
            }
            Row::Put(when, word, value) => {
                if holds(numbers, when) {
                    put_row(out, word, value, numbers, texts);
                }
            }
            Row::Group(when, span) => {
                if !holds(numbers, when) {
                    skip = span;
                }
            }
        }
    }
}

// A word, and the value after it.
fn put_row(out: &mut Output, word: &[u8], value: Value, numbers: &[u64], texts: &[u8])
    ensures { Puts out.old out.new (word.now ++ value_text numbers.now texts.now (value_in value)) }
{
    out.put_bytes(word);
    put_value(out, value, numbers, texts);
}

// Whether a row's test holds.
fn holds(numbers: &[u64], test: Test) -> bool
    ensures { result ≡ holds numbers.now (test_in test) }
{
    match test {
        Test::Always => true,
        Test::Is(place, n) => number_at(numbers, place) == n,
        Test::IsNot(place, n) => number_at(numbers, place) != n,
        Test::Least(place, n) => number_at(numbers, place) >= n,
        Test::Below(place, n) => number_at(numbers, place) < n,
    }
}

// A value. Inlined, so that a form that the caller names is not looked up.
#[inline(always)]
pub fn put_value(out: &mut Output, value: Value, numbers: &[u64], texts: &[u8])
    ensures { Puts out.old out.new (value_text numbers.now texts.now (value_in value)) }
{
    match value {
        Value::Nothing => {}
        Value::Number(place) => out.put_decimal(number_at(numbers, place)),
        Value::Signed(place) => face_values::put_signed(out, number_at(numbers, place)),
        Value::Tenths(place) => face_values::put_tenths(out, number_at(numbers, place)),
        Value::Degrees(place) => face_values::put_degrees(out, number_at(numbers, place)),
        Value::Quoted(place, start) => {
            let n = number_at(numbers, place);
            face_values::put_quoted(out, part(texts, start, n as usize))
        }
        Value::Hexed(place, start) => {
            let n = number_at(numbers, place);
            face_values::put_shown(out, part(texts, start, n as usize))
        }
        Value::Pattern(place) => {
            let n = number_at(numbers, place);
            out.put_word((n % 4294967296) as u32)
        }
        Value::Letter(place) => {
            let n = number_at(numbers, place);
            face_values::put_quoted(out, &[(n % 256) as u8])
        }
        Value::Pair(place) => face_values::put_pair(out, number_at(numbers, place)),
        Value::Float(place) => face_values::put_rate(out, number_at(numbers, place)),
    }
}

// The number at a place of the layout; beyond it, 0.
pub fn number_at(numbers: &[u64], place: usize) -> u64
    ensures { result ≡ get_or numbers.now place 0 }
{
    if place < numbers.len() {
        return numbers[place];
    }
    0
}

// So many bytes of s from a place on, as far as there are any.
fn part(s: &[u8], from: usize, n: usize) -> &[u8]
    ensures { result.now ≡ take n (drop from s.now) }
{
    let a = text_out::up_to(from, s);
    first(&s[a..], n)
}

// The first n bytes of s, or all where there are fewer.
fn first(s: &[u8], n: usize) -> &[u8]
    ensures { result.now ≡ take n s.now }
{
    let k = text_out::up_to(n, s);
    &s[..k]
}
