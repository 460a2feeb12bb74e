// Text that came in, as a word of a command or an argument: whether it is a word that is known.
ghost use Rattle.std.specs.Prelude.{◌≡◌};
ghost use Rattle.lines.specs.Same.{same_as};

// Whether two strings of bytes are the same.
#[tactic(auto, using(crate::proofs::Same::same_bytes))]
pub fn same(s: &[u8], t: &[u8]) -> bool
    ensures { result ≡ same_as s.now t.now }
{
    s == t
}
