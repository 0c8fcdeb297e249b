// Sets of numbers below 32, as masks: bit i of a u32 says whether i is a member.
#![tactic(auto)]

ghost use Rattle.std.specs.Prelude.{◌≡◌, false, ◌||◌, ◌&&◌, not, ℕ, ◌^◌, ◌<◌, ◌≤◌, get_or, eqb, ltb, length};
ghost use Rattle.mask.specs.Search.{some};
ghost use Rattle.mask.specs.Mask.{has, meet, beyond};
ghost use Rattle.mask.specs.MaskInner.{lowest};

// A mask as it is; it has 32 bits. That it gives the mask itself may not change: its public contract says so.
pub fn bits(m: u32) -> u32
    ensures { (result ≡ m) × (m < 2 ^ 32) }
{
    m
}

// Whether i is a member of m.
pub fn has(m: u32, i: usize) -> bool
    requires { i < 32 }
    ensures { result ≡ has m i }
{
    (m >> i) & 1 == 1
}

// The members of m, and i.
pub fn with(m: u32, i: usize) -> u32
    requires { i < 32 }
    ensures { (k : ℕ) → has result k ≡ (has m k || eqb k i) }
{
    m | (1 << i)
}

// The members of m but i.
pub fn without(m: u32, i: usize) -> u32
    requires { i < 32 }
    ensures { (k : ℕ) → has result k ≡ (has m k && not (eqb k i)) }
{
    let b = 1 << i;
    (m | b) ^ b
}

// The members of either.
pub fn union(a: u32, b: u32) -> u32
    ensures { (k : ℕ) → has result k ≡ (has a k || has b k) }
{
    a | b
}

// The members of both.
pub fn common(a: u32, b: u32) -> u32
    ensures { (k : ℕ) → has result k ≡ (has a k && has b k) }
{
    a & b
}

// Whether a and b share a member.
pub fn meets(a: u32, b: u32) -> bool
    ensures { result ≡ meet a b }
{
    a & b != 0
}

// All the numbers below n.
pub fn below(n: usize) -> u32
    requires { n ≤ 32 }
    ensures { (k : ℕ) → has result k ≡ ltb k n }
{
    ((1u64 << n) - 1) as u32
}

// Whether some member of m is n or more.
pub fn beyond(m: u32, n: usize) -> bool
    requires { n ≤ 32 }
    ensures { result ≡ beyond m n }
{
    (1u64 << n) <= m as u64
}

// The lowest member of m, or 32 where it has none.
// A number and not an Option: the contract `result ≡ lowest m` may not change, and all callers but analysis_pairs::judge know a member.
pub fn lowest(m: u32) -> usize
    ensures { result ≡ lowest m }
{
    u32::trailing_zeros(m) as usize
}

// The union of the rows that the members of m name: the members one after another, the lowest first.
#[tactic(auto, using(crate::proofs::MaskLaws::lowest_in))]
pub fn gather(rows: &[u32; 32], m: u32) -> u32
    ensures { (s : ℕ) → has result s ≡ some 32 (λ x. has m x && has (get_or rows.now x 0) s) }
{
    let mut left = m;
    let mut a = 0;
    // A fold over the rows is no plainer: it tests all 32 numbers, and this takes the members alone.
    while left != 0 {
        let x = lowest(left);
        a = a | rows[x];
        left = without(left, x);
    }
    a
}

// The numbers whose mask in the row shares a member with m.
pub fn touching(rows: &[u32; 32], m: u32) -> u32
    ensures { (s : ℕ) → s < 32 → has result s ≡ meet (get_or rows.now s 0) m }
{
    such(|x| meets(rows[x], m))
}

// The numbers below 32 that pass a test.
pub fn such<F: Fn(usize) -> bool>(test: F) -> u32
    requires { (x : ℕ) → x < 32 → F.pre test x }
    ensures below { (x : ℕ) → x < 32 → F.post test x (has result x) }
    ensures beyond { (x : ℕ) → 32 ≤ x → has result x ≡ false }
{
    let mut a = 0;
    // x is a number, and no place: a fold's closure would call the test, and so need a clause of its own; no plainer.
    for x in 0..32 {
        if test(x) {
            a = with(a, x);
        }
    }
    a
}

// The row whose mask r, below n, is what f gives of r; 0 from n up.
pub fn row<F: Fn(usize) -> u32>(n: usize, f: F) -> [u32; 32]
    requires { (n ≤ 32) × ((r : ℕ) → r < n → F.pre f r) }
    ensures size { length result ≡ 32 }
    ensures below { (r : ℕ) → r < n → F.post f r (get_or result r 0) }
    ensures beyond { (r : ℕ) → n ≤ r → get_or result r 0 ≡ 0 }
{
    let mut t = [0u32; 32];
    for (r, m) in t[..n].iter_mut().enumerate() {
        *m = f(r);
    }
    t
}
