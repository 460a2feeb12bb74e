// The words of a command line of the comparing protocol: what stands between single spaces, read as a name, a decimal or bytes.
ghost use Rattle.std.specs.Prelude.{◌≡◌, ◌==◌, true, ◌≤◌, length, drop, count_by};
ghost use Rattle.std.specs.List.{position};
ghost use Rattle.trace_commands.specs.Line.{word_at, count_of};
ghost use Rattle.lines.specs.Same.{same_as};
ghost use Rattle.trace_commands.specs.Numbers.{digit_of, number_of};
ghost use Rattle.trace_commands.specs.Hex.{all_hex, bytes_of, pairs_of, Fills};
ghost use Rattle.text_out.specs.Text.{text, put};

use text_out::Output;

// How many words a line has.
#[tactic(auto, using(crate::proofs::Cuts::spaces_counted))]
pub fn count(line: &[u8]) -> usize
    ensures { result ≡ count_of line.now }
{
    spaces(line) + 1
}

// How many spaces a line has.
fn spaces(line: &[u8]) -> usize
    ensures value { result ≡ count_by (λ b. b == 32) line.now }
    ensures at_most { result ≤ length line.now }
{
    line.iter().filter(|b| **b == b' ').count()
}

// Whether word k, counted from 0, is this name.
pub fn named(line: &[u8], k: usize, name: &[u8]) -> bool
    ensures { result ≡ same_as (word_at k line.now) name.now }
{
    lines::texts::same(word(line, k), name)
}

// Word k as a decimal: one or more digits, leading zeros allowed, of a number of 64 bits.
pub fn decimal(line: &[u8], k: usize) -> Option<u64>
    ensures { result ≡ number_of (word_at k line.now) }
{
    value(word(line, k))
}

// Word k as bytes, read into a lent buffer: one or more pairs of lower-case hex digits, or `-` for no bytes. It tells how many
// there are, or None, where the word has none or more than fit. An array and the count, as the protocol's calls lend them: no heap.
pub fn bytes(line: &[u8], k: usize, into: &mut [u8]) -> Option<usize>
    ensures { Fills (word_at k line.now) into.old result into.new }
{
    read(word(line, k), into)
}

// Word k: nothing where the line has fewer words.
fn word(line: &[u8], k: usize) -> &[u8]
    ensures { result.now ≡ word_at k line.now }
{
    let from = start(line, k);
    first(&line[from..])
}

// The place after the k-th space.
fn start(line: &[u8], k: usize) -> usize
    ensures { (result ≤ length line.now) × (word_at 0 (drop result line.now) ≡ word_at k line.now) }
{
    let mut left = k;
    for (i, &b) in line.iter().enumerate() {
        if left == 0 {
            return i;
        }
        if b == b' ' {
            left -= 1;
        }
    }
    line.len()
}

// The first word: the bytes before the next space.
fn first(line: &[u8]) -> &[u8]
    ensures { result.now ≡ word_at 0 line.now }
{
    let to = space(line).unwrap_or(line.len());
    &line[..to]
}

// The place of the next space.
fn space(line: &[u8]) -> Option<usize>
    ensures { result ≡ position (λ b. b == 32) line.now }
{
    line.iter().position(|b| *b == b' ')
}

// A byte's value as a digit; 16, above every digit, where it is none: one comparison tells a decimal or a hex digit, and needs no Option.
fn digit(b: u8) -> u8
    ensures { result ≡ digit_of b }
{
    match b {
        b'0'..=b'9' => b - b'0',
        b'a'..=b'f' => b - b'a' + 10,
        _ => 16,
    }
}

// A word as a decimal.
#[tactic(auto, unfolding(crate::specs::Numbers::number_of))]
fn value(w: &[u8]) -> Option<u64>
    ensures { result ≡ number_of w.now }
{
    if w.is_empty() {
        return None;
    }
    let mut v: u64 = 0;
    for &b in w {
        let d = u64::from(digit(b));
        if d > 9 {
            return None;
        }
        v = v.checked_mul(10)?.checked_add(d)?;
    }
    Some(v)
}

// A word as bytes.
fn read(w: &[u8], into: &mut [u8]) -> Option<usize>
    ensures { Fills w.now into.old result into.new }
{
    if lines::texts::same(w, b"-") {
        return Some(0);
    }
    if !pairs(w) {
        return None;
    }
    if into.len() < w.len() / 2 {
        return None;
    }
    Some(store(w, into))
}

// Whether a word is one or more pairs of hex digits.
fn pairs(w: &[u8]) -> bool
    ensures { result ≡ pairs_of w.now }
{
    !w.is_empty() && w.len() % 2 == 0 && hex(w)
}

// Whether each byte is a hex digit.
fn hex(w: &[u8]) -> bool
    ensures { result ≡ all_hex w.now }
{
    for &b in w {
        if digit(b) > 15 {
            return false;
        }
    }
    true
}

// Stores the bytes that pairs of hex digits write.
fn store(w: &[u8], into: &mut [u8]) -> usize
    requires { all_hex w.now ≡ true }
    ensures { text result into.new ≡ put (text 0 into.old) (bytes_of w.now) }
{
    let mut out = Output::new(into, 0);
    for i in 0..w.len() / 2 {
        out.put_byte(digit(w[2 * i]) * 16 + digit(w[2 * i + 1]));
    }
    out.at
}
