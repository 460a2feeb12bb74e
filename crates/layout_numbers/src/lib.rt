// Numbers put into a lent slice from a place on, for callers that hold no enum: what does not fit is left out, as in crate `text_out`.
#![tactic(auto)]

ghost use Rattle.std.specs.Prelude.{◌≡◌, [], ◌∷◌, ◌+◌, ◌≤◌, length};
ghost use Rattle.text_out.specs.Text.{text, put};
ghost use Rattle.layout_numbers.specs.Optional.{two_of};

// What may be absent, as two numbers: 0 and 0, or 1 and its number.
pub fn two(o: Option<u64>) -> [u64; 2]
    ensures { result ≡ two_of o }
{
    match o {
        None => [0, 0],
        Some(n) => [1, n],
    }
}

// One number.
pub fn put_number(out: &mut [u64], at: usize, n: u64) -> usize
    ensures { text result out.new ≡ put (text at out.old) (n ∷ []) }
{
    if at < out.len() {
        out[at] = n;
        return at + 1;
    }
    at
}

// Numbers, one after the other.
pub fn put_numbers(out: &mut [u64], at: usize, s: &[u64]) -> usize
    ensures { text result out.new ≡ put (text at out.old) s.now }
{
    if at <= out.len() {
        if s.len() <= out.len() - at {
            return put_all(out, at, s);
        }
    }
    put_some(out, at, s)
}

// Numbers that fit: no test stands between them, so that many can be put at once.
fn put_all(out: &mut [u64], at: usize, s: &[u64]) -> usize
    requires { at + length s.now ≤ length out.old }
    ensures { text result out.new ≡ put (text at out.old) s.now }
{
    let next = at + s.len();
    out[at..next].copy_from_slice(s);
    next
}

// Numbers of which some may not fit.
fn put_some(out: &mut [u64], at: usize, s: &[u64]) -> usize
    ensures { text result out.new ≡ put (text at out.old) s.now }
{
    let mut p = at;
    for &n in s {
        p = put_number(out, p, n);
    }
    p
}
