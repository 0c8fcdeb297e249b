// Little-endian numbers of a slice of bytes.
#![tactic(auto, unfolding(crate::specs::Put::put, crate::specs::Bytes::u16_bytes, crate::specs::Bytes::u32_bytes, crate::specs::Bytes::u64_bytes, crate::specs::Bytes::i64_bytes))]

ghost use Rattle.std.specs.Prelude.{◌≡◌, List, [], ◌∷◌, ℕ, ◌+◌, ◌≤◌, length, take, drop, replicate};
ghost use Rattle.little.specs.Little.{u16_at, u32_at, u64_at, i64_at};
ghost use Rattle.little.specs.Put.{put};
ghost use Rattle.little.specs.Bytes.{u16_bytes, u32_bytes, u64_bytes, i64_bytes};

// A number that stands in bytes, the lowest byte first. Its laws, that the bytes are as many as the width and that what was written is
// read again, are no members: an impl cannot name its crate's proofs/, where all laws stand (BytesLaws, BytesBackLaws).
pub trait Little {
    // how many bytes it has
    ghost width: { ℕ };

    // the number that stands at a place
    ghost held: { List ℕ → ℕ → Self };

    // its bytes
    ghost bytes: { Self → List ℕ };

    fn at(s: &[u8], at: usize) -> Self
        requires { at + width ≤ length s.now }
        ensures { result ≡ held s.now at };

    fn put(self, out: &mut [u8], at: usize)
        requires { at + width ≤ length out.old }
        ensures { out.new ≡ put out.old at (bytes self) };
}

// Four impls of one text: std has no trait for from_le_bytes, and an impl that a macro writes is refused.
impl Little for u16 {
    ghost width = { 2 };

    ghost held = { u16_at };

    ghost bytes = { u16_bytes };

    fn at(s: &[u8], at: usize) -> u16 {
        u16::from_le_bytes(s[at..at + 2].try_into().unwrap())
    }

    fn put(self, out: &mut [u8], at: usize) {
        out[at..at + 2].copy_from_slice(&u16::to_le_bytes(self));
    }
}

impl Little for u32 {
    ghost width = { 4 };

    ghost held = { u32_at };

    ghost bytes = { u32_bytes };

    fn at(s: &[u8], at: usize) -> u32 {
        u32::from_le_bytes(s[at..at + 4].try_into().unwrap())
    }

    fn put(self, out: &mut [u8], at: usize) {
        out[at..at + 4].copy_from_slice(&u32::to_le_bytes(self));
    }
}

impl Little for u64 {
    ghost width = { 8 };

    ghost held = { u64_at };

    ghost bytes = { u64_bytes };

    fn at(s: &[u8], at: usize) -> u64 {
        u64::from_le_bytes(s[at..at + 8].try_into().unwrap())
    }

    fn put(self, out: &mut [u8], at: usize) {
        out[at..at + 8].copy_from_slice(&u64::to_le_bytes(self));
    }
}

impl Little for i64 {
    ghost width = { 8 };

    ghost held = { i64_at };

    ghost bytes = { i64_bytes };

    fn at(s: &[u8], at: usize) -> i64 {
        i64::from_le_bytes(s[at..at + 8].try_into().unwrap())
    }

    fn put(self, out: &mut [u8], at: usize) {
        out[at..at + 8].copy_from_slice(&i64::to_le_bytes(self));
    }
}

// Four bytes side by side.
pub fn put_4(out: &mut [u8], at: usize, a: u8, b: u8, c: u8, d: u8)
    requires { at + 4 ≤ length out.old }
    ensures { out.new ≡ put out.old at (a ∷ b ∷ c ∷ d ∷ []) }
{
    put_bytes(out, at, &[a, b, c, d]);
}

// Bytes as they are.
pub fn put_bytes(out: &mut [u8], at: usize, s: &[u8])
    requires { at + length s.now ≤ length out.old }
    ensures { out.new ≡ put out.old at s.now }
{
    // A loop: `copy_from_slice` would have the archive for C ask for memmove, which it needs for nothing else.
    for (j, b) in s.iter().enumerate() {
        out[at + j] = *b;
    }
}

// The n bytes of s from `from` on.
pub fn put_part(out: &mut [u8], at: usize, s: &[u8], from: usize, n: usize)
    requires { (at + n ≤ length out.old) × (from + n ≤ length s.now) }
    ensures { out.new ≡ put out.old at (take n (drop from s.now)) }
{
    put_bytes(out, at, &s[from..from + n]);
}

// n zeros.
pub fn put_zeros(out: &mut [u8], at: usize, n: usize)
    requires { at + n ≤ length out.old }
    ensures { out.new ≡ put out.old at (replicate n 0) }
{
    out[at..at + n].fill(0);
}
