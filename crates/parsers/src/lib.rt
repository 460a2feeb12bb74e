// Fields of bits over a slice of bytes and a bit place, highest bit first, and six-bit text (messages/parsers.rs).
// Slice and place stay two parameters of each: the form that the scope fixes.
#![tactic(auto)]

pub mod little;

ghost use Rattle.std.specs.Prelude.{◌≡◌, ◌+◌, ◌*◌, ◌^◌, ◌≤◌, ◌<◌, get_or};
ghost use Rattle.parsers.specs.Bits.{val, bit_at};
ghost use Rattle.parsers.specs.Field.{Field, the_taken_in, taken_of, signed_of, twos, remaining_of};
ghost use Rattle.parsers.specs.Scan.{Led, Trailed};
ghost use Rattle.parsers.specs.Text.{ascii_of, char_at, chars_of, text_with, text_of};

// A text of at most 20 characters; the places past its length are 0. A fixed array with its length beside it, since the library has no allocator.
#[derive(Clone, Copy)]
pub struct Text {
    pub bytes: [u8; 20],
    pub len: usize,
}

// Byte i, and 0 past the end.
fn byte(bytes: &[u8], i: usize) -> u8
    ensures { result ≡ get_or bytes.now i 0 }
{
    if i < bytes.len() { bytes[i] } else { 0 }
}

// The number of `count` whole bytes from byte `first` on.
fn window(bytes: &[u8], first: usize, count: usize) -> u64
    requires { (count ≤ 8) × (first < 2 ^ 62) }
    ensures { result ≡ val (bit_at 8 bytes.now) (first * 8) (count * 8) }
{
    let mut acc: u64 = 0;
    for k in 0..count {
        acc = (acc << 8) | (byte(bytes, first + k) as u64);
    }
    acc
}

// The `width` bits from bit `off` of byte `first` on: the bytes that hold them, the rest shifted out and masked off.
fn cut_out(bytes: &[u8], first: usize, off: usize, width: usize) -> u64
    requires { (first < 2 ^ 62) × ((off < 8) × (width ≤ 56)) }
    ensures { result ≡ val (bit_at 8 bytes.now) (first * 8 + off) width }
{
    let count = (off + width + 7) / 8;
    let all = window(bytes, first, count);
    let spare = count * 8 - off - width;
    (all >> spare) & ((1u64 << width) - 1)
}

// The `width` bits from place `at` on, at most 56 of them, with zeros past the end.
pub fn field(bytes: &[u8], at: usize, width: usize) -> u64
    ensures { Field bytes.now at width result }
{
    if width > 56 {
        return 0;
    }
    cut_out(bytes, at / 8, at % 8, width)
}

// The same, and `None` where the field runs past the last byte.
pub fn take_bits(bytes: &[u8], at: usize, width: usize) -> Option<u64>
    ensures { the_taken_in result ≡ taken_of bytes.now at width }
{
    let first = at / 8;
    if width > 56 {
        return None;
    }
    let count = (at % 8 + width + 7) / 8;
    if bytes.len() < first {
        return None;
    }
    if bytes.len() - first < count {
        return None;
    }
    Some(field(bytes, at, width))
}

// The type of a message: its first six bits.
pub fn message_type(bytes: &[u8]) -> Option<u64>
    ensures { the_taken_in result ≡ taken_of bytes.now 0 6 }
{
    take_bits(bytes, 0, 6)
}

// The count of bits from place `at` to the end, at most 2 ^ 63 of them.
pub fn remaining_bits(bytes: &[u8], at: usize) -> usize
    ensures { result ≡ remaining_of bytes.now at }
{
    let first = at / 8;
    if bytes.len() <= first {
        return 0;
    }
    let whole = bytes.len() - first;
    if whole > 0x1000_0000_0000_0000 {
        return 0x8000_0000_0000_0000;
    }
    whole * 8 - at % 8
}

// The number that `width` bits write as two's complement, from the number that they write unsigned.
fn signed_of(v: u64, width: usize) -> i32
    requires { (width ≤ 32) × (v < 2 ^ width) }
    ensures { result ≡ twos width v }
{
    let all = 1u64 << width;
    if v * 2 < all {
        v as i32
    } else {
        let below = (all - 1 - v) as i32;
        -1 - below
    }
}

// A field of at most 32 bits as two's complement, with zeros past the end.
pub fn signed_i32(bytes: &[u8], at: usize, width: usize) -> i32
    ensures { result ≡ signed_of bytes.now at width }
{
    if width > 32 {
        return 0;
    }
    signed_of(field(bytes, at, width), width)
}

// The ASCII character of six bits.
fn sixbit_to_ascii(v: u64) -> u8
    requires { v < 64 }
    ensures { result ≡ ascii_of v }
{
    if v < 32 { v as u8 + 64 } else { v as u8 }
}

// Character i of the text that starts at place `at`. The place is kept as byte and bit, so that no sum of places can wrap.
fn ascii_at(bytes: &[u8], at: usize, i: usize) -> u8
    requires { i < 20 }
    ensures { result ≡ char_at bytes.now at i }
{
    let bit = at % 8 + i * 6;
    sixbit_to_ascii(cut_out(bytes, at / 8 + bit / 8, bit % 8, 6))
}

// How many spaces the text of `count` characters starts with.
fn leading(bytes: &[u8], at: usize, count: usize) -> usize
    requires { count ≤ 20 }
    ensures { Led bytes.now at count result }
{
    for i in 0..count {
        if ascii_at(bytes, at, i) != 32 {
            return i;
        }
    }
    count
}

// How many of the `count` characters from character `start` on are left without those at the end that are c.
fn trailing(bytes: &[u8], at: usize, start: usize, count: usize, c: u8) -> usize
    requires { start + count ≤ 20 }
    ensures { Trailed c bytes.now (at + start * 6) count result }
{
    for i in (0..count).rev() {
        if ascii_at(bytes, at, start + i) != c {
            return i + 1;
        }
    }
    0
}

// The `count` characters from character `start` on.
fn spell(bytes: &[u8], at: usize, start: usize, count: usize) -> Text
    requires { start + count ≤ 20 }
    ensures { result ≡ text_with (chars_of bytes.now (at + start * 6) count) }
{
    let mut out = [0u8; 20];
    for i in 0..count {
        out[i] = ascii_at(bytes, at, start + i);
    }
    Text {
        bytes: out,
        len: count,
    }
}

// The text of `size` bits from place `at` on, six to a character and at most 20 characters, trimmed, with zeros past the end.
pub fn parse_6bit_ascii(bytes: &[u8], at: usize, size: usize) -> Text
    ensures { result ≡ text_of bytes.now at size }
{
    let count = size / 6;
    if count > 20 {
        return Text {
            bytes: [0u8; 20],
            len: 0,
        };
    }
    let start = leading(bytes, at, count);
    let named = trailing(bytes, at, start, count - start, 64);
    let kept = trailing(bytes, at, start, named, 32);
    spell(bytes, at, start, kept)
}
