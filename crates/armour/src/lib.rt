// Unarmoring: the six bits of each payload character, joined and cut into bytes (messages/mod.rs, `unarmor`).
#![tactic(auto)]

ghost use Rattle.std.specs.Prelude.{◌≡◌, ◌++◌, ℕ, ◌+◌, ◌*◌, ◌/◌, ◌^◌, ◌≤◌, ◌<◌, ltb, leb, length, drop, replicate};
ghost use Rattle.parsers.specs.Bits.{val, pack};
ghost use Rattle.armour.specs.Armour.{meaning, the_true_type, first_bad, stream};
ghost use Rattle.armour.specs.Spread.{Spreads, Rooms, Sixes};
ghost use Rattle.armour.specs.Unarmor.{bad_fill, unarmored_in, answer_of, Unarmors};

use refusal::Refusal;

// Whether a byte is armour. Both ranges are tested, with no branch between them: which one a payload's next byte is of cannot be guessed.
fn is_armour(b: u8) -> bool
    ensures { result ≡ ltb (meaning b) 64 }
{
    (48 <= b) & (b <= 87) | (96 <= b) & (b <= 119)
}

// The six-bit value of an armour byte.
fn value(b: u8) -> u8
    requires { meaning b < 64 }
    ensures { result ≡ meaning b }
{
    if b < 88 { b - 48 } else { b - 56 }
}

// The six-bit value of an armour byte, and 64 for any other.
pub fn six(b: u8) -> u8
    ensures { result ≡ meaning b }
{
    if is_armour(b) { value(b) } else { 64 }
}

// The true type of a payload: what its first byte tells, and none where that byte is no armour.
pub fn true_type(payload: &[u8]) -> Option<u8>
    ensures { result ≡ the_true_type payload.now }
{
    let [first, ..] = payload else {
        return None;
    };
    let v = six(*first);
    (v < 64).then_some(v)
}

// Whether every byte is armour. All are looked at, with no way out between them, so that many can be taken at once.
// (`all`, which leaves at the first that is none, took 42 ns for 28 characters where this took 16, and 400 ns for 384 where this took 29.)
fn all_armour(payload: &[u8]) -> bool
    ensures { result ≡ leb (length payload.now) (first_bad payload.now) }
{
    let mut good = true;
    for &b in payload {
        good &= is_armour(b);
    }
    good
}

// The lowest offset that holds no armour, or the length. Left by `break` with the offset as the loop's value: the form that the scope fixes.
fn first_bad(payload: &[u8]) -> usize
    ensures { result ≡ first_bad payload.now }
{
    let mut i: usize = 0;
    loop {
        if i >= payload.len() {
            break i;
        }
        if six(payload[i]) > 63 {
            break i;
        }
        i += 1;
    }
}

// The six bits of the last character, with the fill cleared.
fn last_six(b: u8, fill: usize) -> u8
    requires { (meaning b < 64) × (fill ≤ 5) }
    ensures { result ≡ meaning b / 2 ^ fill * 2 ^ fill }
{
    (value(b) >> fill) << fill
}

// A six-bit value in a number that has room for four.
fn wide(v: u8) -> u32
    ensures { result ≡ v }
{
    v as u32
}

// Four characters from character i on, as one number.
fn four_at(s: &[u8], i: usize) -> u32
    requires { i + 4 ≤ length s.now }
    ensures { (f : ℕ → ℕ) → Sixes f s.now → result ≡ val f (i * 6) 24 }
{
    let a = wide(s[i]);
    let b = wide(s[i + 1]);
    let c = wide(s[i + 2]);
    let d = wide(s[i + 3]);
    let two = (a << 6) | b;
    let three = (two << 6) | c;
    (three << 6) | d
}

// The first 3 times `groups` bytes of the output, each three from the four characters that they are made of.
fn put_groups(s: &[u8], groups: usize, out: &mut [u8])
    requires { (groups * 4 ≤ length s.now) × (groups * 3 ≤ length out.old) }
    ensures { (f : ℕ → ℕ) → Sixes f s.now → out.new ≡ pack 8 (groups * 3) f ++ drop (groups * 3) out.old }
{
    for k in 0..groups {
        let v = four_at(s, k * 4);
        let j = k * 3;
        out[j] = ((v >> 16) & 255) as u8;
        out[j + 1] = ((v >> 8) & 255) as u8;
        out[j + 2] = (v & 255) as u8;
    }
}

// A payload that passed the checks of unarmoring, with its fill.
#[derive(Clone, Copy)]
struct Armoured<'a> {
    payload: &'a [u8],
    fill: usize,
    ghost spreads: { Spreads payload.now fill },
}

impl Armoured<'_> {
    // The six bits of every character, where zeros stood.
    fn put_sixes(&self, out: &mut [u8])
        requires { (length self.now.payload.now ≤ length out.old) × (out.old ≡ replicate (length out.old) 0) }
        ensures { Sixes (stream self.now.payload.now self.now.fill) out.new }
    {
        let payload = self.payload;
        if payload.len() == 0 {
            return;
        }
        let last = payload.len() - 1;
        for i in 0..last {
            out[i] = value(payload[i]);
        }
        out[last] = last_six(payload[last], self.fill);
    }

    // The output's `need` bytes, from its start: three at a time, and then what is left. `s` is room for the six bits of each character.
    fn spread_by(&self, need: usize, s: &mut [u8], out: &mut [u8])
        requires { Rooms self.now.payload.now need s.old × (need ≤ length out.old) }
        ensures { out.new ≡ pack 8 need (stream self.now.payload.now self.now.fill) ++ drop need out.old }
    {
        self.put_sixes(s);
        let groups = need / 3;
        put_groups(s, groups, out);
        let done = groups * 3;
        if need <= done {
            return;
        }
        let v = four_at(s, groups * 4);
        out[done] = ((v >> 16) & 255) as u8;
        if need <= done + 1 {
            return;
        }
        out[done + 1] = ((v >> 8) & 255) as u8;
    }

    // The same, with room to work in: little of it for the payload of a usual line.
    fn spread(&self, need: usize, out: &mut [u8])
        requires { (need ≡ (length self.now.payload.now * 6 + 7) / 8) × (need ≤ length out.old) }
        ensures { out.new ≡ pack 8 need (stream self.now.payload.now self.now.fill) ++ drop need out.old }
    {
        if self.payload.len() <= 64 {
            let mut s = [0u8; 64];
            self.spread_by(need, &mut s, out);
            return;
        }
        let mut s = [0u8; 384];
        self.spread_by(need, &mut s, out);
    }
}

// Whether the fill is over 5, or there is fill with empty data.
fn bad_fill(payload: &[u8], fill: usize) -> bool
    ensures { result ≡ bad_fill payload.now fill }
{
    fill > 5 || payload.len() == 0 && fill > 0
}

// How many bytes the output takes, or why there are none: refusals 7, 6, 12 and 8, in that order.
fn needed(payload: &[u8], fill: usize, room: usize) -> Result<usize, Refusal>
    ensures { unarmored_in result ≡ answer_of payload.now fill room }
{
    let n = payload.len();
    if bad_fill(payload, fill) {
        return Err(Refusal::Fill);
    }
    if n > 384 {
        return Err(Refusal::PayloadTooLong);
    }
    let need = (n * 6 + 7) / 8;
    if room < need {
        return Err(Refusal::Room);
    }
    if all_armour(payload) {
        return Ok(need);
    }
    let at = first_bad(payload);
    Err(Refusal::Armour { offset: at })
}

// Unarmors a payload of at most 384 characters into `out`, and tells how many bytes stand first there: refusals 7, 6, 12 and 8, in that order.
pub fn unarmor(payload: &[u8], fill: usize, out: &mut [u8]) -> Result<usize, Refusal>
    ensures { Unarmors payload.now fill out.old result out.new }
{
    let need = needed(payload, fill, out.len())?;
    let armoured = Armoured { payload, fill };
    armoured.spread(need, out);
    Ok(need)
}
