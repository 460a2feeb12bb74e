// Text put into a lent buffer from a place on: bytes, hex, decimals. What does not fit is left out, and an output holds the place after what was put,
// so that a caller puts one piece after the other and tests nothing in between.
#![tactic(auto)]

ghost use Rattle.std.specs.Prelude.{◌≡◌, [], ◌∷◌, ◌<◌, ◌≤◌, min, length, take, drop};
ghost use Rattle.text_out.specs.Text.{text, put};
ghost use Rattle.text_out.specs.Output.{stands, Puts};
ghost use Rattle.text_out.specs.Digits.{glyph, decimal_of, hex_of, word_of};

// A lent buffer, and the place where the next byte goes.
pub struct Output<'a> {
    pub buffer: &'a mut [u8],
    pub at: usize,
}

impl<'a> Output<'a> {
    // From a place of a buffer on.
    pub fn new(buffer: &'a mut [u8], at: usize) -> Self
        ensures same { result.buffer.ghost_name ≡ buffer.entry.ghost_name }
        ensures is { stands result ≡ text at buffer.old }
    {
        Self { buffer, at }
    }

    // One byte.
    pub fn put_byte(&mut self, b: u8)
        ensures { Puts self.old self.new (b ∷ []) }
    {
        if self.at < self.buffer.len() {
            self.buffer[self.at] = b;
            self.at += 1;
        }
    }

    // A string of bytes: all at once where it fits.
    pub fn put_bytes(&mut self, s: &[u8])
        ensures { Puts self.old self.new s.now }
    {
        if self.at <= self.buffer.len() {
            if s.len() <= self.buffer.len() - self.at {
                let end = self.at + s.len();
                self.buffer[self.at..end].copy_from_slice(s);
                self.at = end;
                return;
            }
        }
        self.put_some(s);
    }

    // A string of which some may not fit. Of bytes and not of any type: what is put is defined over lists of numbers, and over any type all its laws would be
    // stated anew.
    fn put_some(&mut self, s: &[u8])
        ensures { Puts self.old self.new s.now }
    {
        for &b in s {
            self.put_byte(b);
        }
    }

    // Bytes as pairs of lower-case hex digits.
    pub fn put_hex(&mut self, s: &[u8])
        ensures { Puts self.old self.new (hex_of s.now) }
    {
        for &b in s {
            self.put_byte(digit_of(b / 16));
            self.put_byte(digit_of(b % 16));
        }
    }

    // A number of 32 bits as eight hex digits, as a float's bit pattern is shown.
    pub fn put_word(&mut self, n: u32)
        ensures { Puts self.old self.new (word_of n) }
    {
        let b = [
            (n / 16777216 % 256) as u8,
            (n / 65536 % 256) as u8,
            (n / 256 % 256) as u8,
            (n % 256) as u8,
        ];
        self.put_hex(&b);
    }

    // A number in decimal, with no leading zeros. One digit, as most numbers of a report have, is put by itself.
    pub fn put_decimal(&mut self, n: u64)
        ensures { Puts self.old self.new (decimal_of n) }
    {
        if n < 10 {
            self.put_byte(digit_of(n as u8));
            return;
        }
        let mut digits = [0u8; 20];
        let i = spell(n, &mut digits);
        self.put_bytes(&digits[i..]);
    }
}

// Where an output goes, its lender finds in the buffer what stands there.
impl Drop for Output<'_> {
    fn drop(self)
        ensures { self.exit.0.now ≡ self.entry.buffer.now }
    {
        let Self { buffer: _, at: _ } = self;
    }
}

// The number n, or the length of s where that is less: a count of bytes of s, so that `&s[..up_to(n, s)]` asks its caller no proof.
pub fn up_to(n: usize, s: &[u8]) -> usize
    ensures value { result ≡ min n (length s.now) }
    ensures upper_bound { (result ≤ length s.now) × (result ≡ length (take result s.now)) }
{
    if n < s.len() { n } else { s.len() }
}

// Puts the decimal digits of n last in `digits`, and answers the place of the first of them.
// From the last one on while there are any: a `for` over the places would break off at the same test.
fn spell(n: u64, digits: &mut [u8]) -> usize
    requires { length digits.old ≡ 20 }
    ensures digits_after { drop result digits.new ≡ decimal_of n }
    ensures upper_bound { (result < 20) × (length digits.new ≡ 20) }
{
    let mut rest = n;
    let mut i = 20;
    while rest > 9 {
        i -= 1;
        digits[i] = digit_of((rest % 10) as u8);
        rest /= 10;
    }
    i -= 1;
    digits[i] = digit_of(rest as u8);
    i
}

// The digit of a number below 16.
fn digit_of(d: u8) -> u8
    requires { d < 16 }
    ensures { result ≡ glyph d }
{
    if d < 10 { b'0' + d } else { b'a' + (d - 10) }
}
