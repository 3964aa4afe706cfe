// Puts a field of bits into a slice of bytes, most significant bit first: the inverse of bits::field. What lies past the end is not written.
#![tactic(auto)]

ghost use Rattle.std.specs.Prelude.{◌≡◌, ◌+◌, ◌-◌, ◌/◌, ◌%◌, ◌^◌, ◌<◌, ◌≤◌, get_or, set};
ghost use Rattle.put.specs.Put.{inserted, put_at};

// The last n bits of v.
fn last_bits(v: u64, n: usize) -> u64
    requires { n ≤ 8 }
    ensures { (result ≡ v % 2 ^ n) × (result < 2 ^ n) }
{
    v & ((1 << n) - 1)
}

// A byte with the last n bits of v before its last r bits.
fn with_bits(b: u8, n: usize, r: usize, v: u64) -> u8
    requires { n + r ≤ 8 }
    ensures { result ≡ inserted b n r v }
{
    let kept = b as u64;
    (((kept >> (n + r)) << (n + r)) + (last_bits(v, n) << r) + last_bits(kept, r)) as u8
}

// Puts them into byte k.
fn put_in(s: &mut [u8], k: usize, n: usize, r: usize, v: u64)
    requires { n + r ≤ 8 }
    ensures { s.new ≡ set s.old k (inserted (get_or s.old k 0) n r v) }
{
    if k < s.len() {
        let b = s[k];
        s[k] = with_bits(b, n, r, v);
    }
}

// How many of w bits stand in the byte whose bit o is the first of them.
fn bits_here(o: usize, w: usize) -> usize
    requires { o < 8 }
    ensures { (result ≤ w) × (o + result ≤ 8) × (0 < w → 0 < result) }
{
    let room = 8 - o;
    if room < w { room } else { w }
}

// Puts those of the last w bits of v that stand in the byte of bit p, and answers how many they are.
fn put_first(s: &mut [u8], p: usize, w: usize, v: u64) -> usize
    requires { (0 < w) × (w ≤ 64) }
    ensures { (0 < result) × (result ≤ w) × (s.new ≡ put_at s.old p result (v / 2 ^ (w - result))) }
{
    let o = p & 7;
    let n = bits_here(o, w);
    put_in(s, p >> 3, n, 8 - o - n, v >> (w - n));
    n
}

// Puts the last w bits of v at bit off of what starts at bit at. The types bound the offset, so a caller shows only the width.
pub fn put(s: &mut [u8], at: u32, off: u32, w: usize, v: u64)
    requires { w ≤ 64 }
    ensures { s.new ≡ put_at s.old (at + off) w v }
{
    let mut p: usize = at as usize + off as usize;
    let mut left: usize = w;
    // A step puts as many bits as its byte still holds, so no range counts the steps.
    while 0 < left {
        let n = put_first(s, p, left, v);
        p += n;
        left -= n;
    }
}
