// A number as eight bytes, the lowest first, and back.
ghost use Rattle.std.specs.Prelude.{◌≡◌, [], ◌∷◌};
ghost use Rattle.parsers.specs.Little.{little_of, little_bytes};

// The number of eight bytes, the lowest first.
pub fn from_eight(a: u8, b: u8, c: u8, d: u8, e: u8, f: u8, g: u8, h: u8) -> usize
    ensures { result ≡ little_of (a ∷ b ∷ c ∷ d ∷ e ∷ f ∷ g ∷ h ∷ []) }
{
    usize::from_le_bytes([a, b, c, d, e, f, g, h])
}

// A number in eight bytes, the lowest first.
pub fn to_eight(n: usize) -> [u8; 8]
    ensures { result ≡ little_bytes 8 n }
{
    n.to_le_bytes()
}
