// Single values as text, from the numbers of an answer's layout: a signed number, tenths, degrees, a rate of turn, a string in quotes.
#![tactic(auto)]

ghost use Rattle.std.specs.Prelude.{◌≡◌, ◌<◌};
ghost use Rattle.text_out.specs.Output.{Puts};
ghost use Rattle.face_values.specs.Signed.{size_in, sign_in, signed_in};
ghost use Rattle.face_values.specs.Point.{tenths_in, six_digits, nine_digits, fixed, millionths, degrees_in};
ghost use Rattle.face_values.specs.Rate.{patterns, billionths_of, fixed_nine, rate_in};
ghost use Rattle.face_values.specs.Quoted.{code_of, escaped, inside, quoted_in, shown_in, pair_in};

use text_out::Output;

// A signed number, in two's complement of 64 bits.
pub fn put_signed(out: &mut Output, n: u64)
    ensures { Puts out.old out.new (signed_in n) }
{
    let m = size(n);
    put_sign(out, n);
    out.put_decimal(m);
}

// A signed number without its sign.
fn size(n: u64) -> u64
    ensures { result ≡ size_in n }
{
    if n < 0x8000_0000_0000_0000 {
        return n;
    }
    0xffff_ffff_ffff_ffff - n + 1
}

// A minus sign, where the number is below 0.
fn put_sign(out: &mut Output, n: u64)
    ensures { Puts out.old out.new (sign_in n) }
{
    if n < 0x8000_0000_0000_0000 {
        return;
    }
    out.put_byte(b'-');
}

// A count of tenths, exactly.
pub fn put_tenths(out: &mut Output, n: u64)
    ensures { Puts out.old out.new (tenths_in n) }
{
    out.put_decimal(n / 10);
    out.put_byte(b'.');
    out.put_decimal(n % 10);
}

// A count of 1/600000 degrees, to the nearest millionth of a degree.
pub fn put_degrees(out: &mut Output, n: u64)
    ensures { Puts out.old out.new (degrees_in n) }
{
    let k = rounded(size(n));
    put_sign(out, n);
    put_fixed(out, k);
}

// The count of millionths of a degree.
fn rounded(m: u64) -> u64
    ensures { result ≡ millionths m }
{
    (m % 4294967296 * 5 + 1) / 3
}

// A count of millionths: a point, and six digits after it.
fn put_fixed(out: &mut Output, n: u64)
    ensures { Puts out.old out.new (fixed n) }
{
    out.put_decimal(n / 1000000);
    out.put_byte(b'.');
    put_six(out, n);
}

// The last six digits of a number.
fn put_six(out: &mut Output, n: u64)
    ensures { Puts out.old out.new (six_digits n) }
{
    let digits = [
        b'0' + (n / 100000 % 10) as u8,
        b'0' + (n / 10000 % 10) as u8,
        b'0' + (n / 1000 % 10) as u8,
        b'0' + (n / 100 % 10) as u8,
        b'0' + (n / 10 % 10) as u8,
        b'0' + (n % 10) as u8,
    ];
    out.put_bytes(&digits);
}

// A rate of turn, from its bit pattern.
pub fn put_rate(out: &mut Output, pattern: u64)
    ensures { Puts out.old out.new (rate_in pattern) }
{
    if pattern >= 1266679808 {
        out.put_bytes(b"null");
        return;
    }
    let n = billionths(pattern);
    put_count(out, n);
}

// The nearest count of 10 ^ -9; below 2 ^ -36 it is 0.
fn billionths(pattern: u64) -> u64
    requires { pattern < patterns }
    ensures { result ≡ billionths_of pattern }
{
    let shift = 150 - pattern / 8388608;
    if shift > 60 {
        return 0;
    }
    let scaled = (8388608 + pattern % 8388608) * 2000000000;
    (scaled + (1u64 << shift)) >> (shift + 1)
}

// A count of 10 ^ -9: a point, and nine digits after it.
fn put_count(out: &mut Output, n: u64)
    ensures { Puts out.old out.new (fixed_nine n) }
{
    out.put_decimal(n / 1000000000);
    out.put_byte(b'.');
    put_nine(out, n);
}

// The last nine digits of a number.
fn put_nine(out: &mut Output, n: u64)
    ensures { Puts out.old out.new (nine_digits n) }
{
    let digits = [
        b'0' + (n / 100000000 % 10) as u8,
        b'0' + (n / 10000000 % 10) as u8,
        b'0' + (n / 1000000 % 10) as u8,
        b'0' + (n / 100000 % 10) as u8,
        b'0' + (n / 10000 % 10) as u8,
        b'0' + (n / 1000 % 10) as u8,
        b'0' + (n / 100 % 10) as u8,
        b'0' + (n / 10 % 10) as u8,
        b'0' + (n % 10) as u8,
    ];
    out.put_bytes(&digits);
}

// A byte as two capital hex digits.
pub fn put_pair(out: &mut Output, n: u64)
    ensures { Puts out.old out.new (pair_in n) }
{
    let digits = [
        scan::capital_digit((n / 16 % 16) as u8),
        scan::capital_digit((n % 16) as u8),
    ];
    out.put_bytes(&digits);
}

// A string, in quotes and escaped.
pub fn put_quoted(out: &mut Output, s: &[u8])
    ensures { Puts out.old out.new (quoted_in s.now) }
{
    out.put_byte(b'"');
    put_inside(out, s);
    out.put_byte(b'"');
}

// The bytes of a string, each as it stands within quotes.
fn put_inside(out: &mut Output, s: &[u8])
    ensures { Puts out.old out.new (inside s.now) }
{
    for &b in s {
        put_char(out, b);
    }
}

// A byte of a string.
fn put_char(out: &mut Output, b: u8)
    ensures { Puts out.old out.new (escaped b) }
{
    if b == b'"' {
        out.put_bytes(b"\\\"");
        return;
    }
    if b == b'\\' {
        out.put_bytes(b"\\\\");
        return;
    }
    if b < 32 {
        put_code(out, b);
        return;
    }
    if b > 126 {
        put_code(out, b);
        return;
    }
    out.put_byte(b);
}

// A byte by its number.
fn put_code(out: &mut Output, b: u8)
    ensures { Puts out.old out.new (code_of b) }
{
    out.put_bytes(b"\\u00");
    out.put_hex(&[b]);
}

// Bytes as pairs of hex digits, and `-` for none.
pub fn put_shown(out: &mut Output, s: &[u8])
    ensures { Puts out.old out.new (shown_in s.now) }
{
    if s.len() == 0 {
        return out.put_byte(b'-');
    }
    out.put_hex(s);
}
