// One field of every record of a kind, into a lent buffer: what the pass reads often is decoded once.
#![tactic(auto)]

ghost use Rattle.std.specs.Prelude.{◌≡◌, ◌++◌, ◌+◌, ◌*◌, ◌<◌, ◌≤◌, ◌^◌, ℕ, length, drop};
ghost use Rattle.std.specs.Float.Ieee.{of_bits};
ghost use Rattle.std.specs.Float.{binary64};
ghost use Rattle.bits.specs.Field.{field_at};
ghost use Rattle.laws.specs.Tables.{tab};
ghost use Rattle.mask.specs.Mask.{built};
ghost use Rattle.fields.specs.Named.{contains, named, guarded};

// What read makes of the start of each of n records, len bits each from base.
pub fn fill<T: Copy, F: Fn(u32) -> T>(base: u32, len: u32, n: usize, read: F, out: &mut [T])
    requires { (base < 2 ^ 31) × (len ≤ 1000) × (n ≤ 512) × (n ≤ length out.old) × F.IsAlwaysCallable read }
    ensures { (length out.new ≡ length out.old)
        × ((f : ℕ → T) → ((i : ℕ) (x : T) → i < n → F.post read (base + len * i) x → x ≡ f i) → out.new ≡ tab f n ++ drop n out.old) }
{
    for i in 0..n {
        out[i] = read(base + len * (i as u32));
    }
}

// The 32 bits at off of each of n records, len bits each from base.
pub fn fill32(s: &[u8], base: u32, len: u32, off: u32, n: usize, out: &mut [u32])
    requires { (base < 2 ^ 31) × (len ≤ 1000) × (n ≤ 512) × (n ≤ length out.old) }
    ensures { (length out.new ≡ length out.old)
        × (out.new ≡ tab (λ i. field_at s.now (base + len * i + off) 32) n ++ drop n out.old) }
{
    fill(base, len, n, |at| bits::field32(s, at, off), out);
}

// The double in the w bits at off of each record; in none it is 0.
pub fn fill_doubles(s: &[u8], base: u32, len: u32, off: u32, w: usize, n: usize, out: &mut [f64])
    requires { (base < 2 ^ 31) × (len ≤ 1000) × (n ≤ 512) × (n ≤ length out.old) × (w ≤ 64) }
    ensures { (length out.new ≡ length out.old)
        × (out.new ≡ tab (λ i. of_bits binary64 (field_at s.now (base + len * i + off) w)) n ++ drop n out.old) }
{
    fill(
        base,
        len,
        n,
        |at| fp::double(bits::field(s, at, off, w)),
        out,
    );
}

// The 32 bits at off of what starts at bit at, 0 where the w bits at guard are all zero.
fn guarded_at(s: &[u8], at: u32, off: u32, guard: u32, w: usize) -> u32
    requires { w ≤ 64 }
    ensures { result ≡ guarded s.now at off guard w }
{
    if bits::field(s, at, guard, w) == 0 {
        return 0;
    }
    bits::field32(s, at, off)
}

// The 32 bits at off of each record, 0 where the w bits at guard are all zero.
pub fn fill_guarded(
    s: &[u8],
    base: u32,
    len: u32,
    off: u32,
    guard: u32,
    w: usize,
    n: usize,
    out: &mut [u32],
)
    requires { (base < 2 ^ 31) × (len ≤ 1000) × (n ≤ 512) × (n ≤ length out.old) × (w ≤ 64) }
    ensures { (length out.new ≡ length out.old)
        × (out.new ≡ tab (λ i. guarded s.now (base + len * i) off guard w) n ++ drop n out.old) }
{
    fill(base, len, n, |at| guarded_at(s, at, off, guard, w), out);
}

// Whether an id is among the first n of a column. Every one is looked at, so that several are compared at a time.
pub fn contains(ids: &[u32], n: usize, id: u32) -> bool
    requires { n ≤ length ids.now }
    ensures { result ≡ contains ids.now n id }
{
    let mut found = false;
    for x in &ids[..n] {
        found |= *x == id;
    }
    found
}

// Whether j is one of n stops and its name is among the first k ids.
fn is_named(ids: &[u32], k: usize, names: &[u32], n: usize, j: usize) -> bool
    requires { (k ≤ length ids.now) × (length names.now ≡ 64) × (j < 64) }
    ensures { result ≡ named ids.now k names.now n j }
{
    j < n && contains(ids, k, names[j])
}

// The stops, n of them with their names, that are among the first k ids. Each place gives a bit of the mask, so the loop goes by places.
pub fn named_stops(ids: &[u32], k: usize, names: &[u32], n: usize) -> u64
    requires { (k ≤ length ids.now) × (length names.now ≡ 64) }
    ensures { result ≡ built (named ids.now k names.now n) 64 }
{
    let mut m: u64 = 0;
    for j in 0..64 {
        m = mask::pushed(m, is_named(ids, k, names, n, j));
    }
    m
}
