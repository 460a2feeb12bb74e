// Values of a member of a JSON object, over the numbers of an answer's layout: a value or null, a flag, a status in words.
#![tactic(auto)]

ghost use Rattle.std.specs.Prelude.{◌≡◌, eqb, get_or};
ghost use Rattle.text_out.specs.Output.{Puts};
ghost use Rattle.refusal.specs.Words.{pick};
ghost use Rattle.text_out.specs.Text.{ascii};
ghost use Rattle.text_out.specs.Digits.{decimal_of};
ghost use Rattle.face_rows.specs.Rows.{value_text};
ghost use Rattle.face_rows.specs.Code.{value_in};
ghost use Rattle.face_members.specs.Words.{status_word};
ghost use Rattle.face_members.specs.Members.{null};

use face_rows::Value;
use face_rows::places::STATUS;
use text_out::Output;

// A value, where the number at a place is 1, else null.
pub fn value_or_null(out: &mut Output, numbers: &[u64], texts: &[u8], there: usize, value: Value)
    ensures { Puts out.old out.new (pick (eqb (get_or numbers.now there 0) 1) (value_text numbers.now texts.now (value_in value)) null) }
{
    let known = face_rows::number_at(numbers, there);
    if known == 1 {
        face_rows::put_value(out, value, numbers, texts);
        return;
    }
    out.put_bytes(b"null");
}

// The number at a place, where `none` stands for null.
pub fn unless_null(out: &mut Output, numbers: &[u64], place: usize, none: u64)
    ensures { Puts out.old out.new (pick (eqb (get_or numbers.now place 0) none) null (decimal_of (get_or numbers.now place 0))) }
{
    let n = face_rows::number_at(numbers, place);
    if n == none {
        out.put_bytes(b"null");
        return;
    }
    out.put_decimal(n);
}

// Whether the number at a place is 1.
pub fn put_flag(out: &mut Output, numbers: &[u64], place: usize)
    ensures { Puts out.old out.new (pick (eqb (get_or numbers.now place 0) 1) (ascii "true") (ascii "false")) }
{
    let n = face_rows::number_at(numbers, place);
    if n == 1 {
        out.put_bytes(b"true");
        return;
    }
    out.put_bytes(b"false");
}

// The status at its place, in words.
pub fn put_words(out: &mut Output, numbers: &[u64])
    ensures { Puts out.old out.new (status_word (get_or numbers.now 20 0)) }
{
    // a status is the number that was sent
    let n = face_rows::number_at(numbers, STATUS);
    match n {
        0 => out.put_bytes(b"\"Under way using engine\""),
        1 => out.put_bytes(b"\"At anchor\""),
        2 => out.put_bytes(b"\"Not under command\""),
        3 => out.put_bytes(b"\"Restricted manoeuverability\""),
        4 => out.put_bytes(b"\"Constrained by her draught\""),
        5 => out.put_bytes(b"\"Moored\""),
        6 => out.put_bytes(b"\"Aground\""),
        7 => out.put_bytes(b"\"Engaged in Fishing\""),
        8 => out.put_bytes(b"\"Under way sailing\""),
        9 => out.put_bytes(b"\"Reserved for future amendment of Navigational Status for HSC\""),
        10 => out.put_bytes(b"\"Reserved for future amendment of Navigational Status for WIG\""),
        11..=13 => out.put_bytes(b"\"Reserved for future use\""),
        14 => out.put_bytes(b"\"AIS-SART is active\""),
        _ => out.put_bytes(b"null"),
    }
}
