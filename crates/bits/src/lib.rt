// Fields of bits in a slice of bytes, most significant bit first. Past the end of the slice every bit is 0.
#![tactic(auto)]

ghost use Rattle.std.specs.Prelude.{◌≡◌, ◌+◌, ◌-◌, ◌*◌, ◌/◌, ◌%◌, ◌^◌, ◌<◌, ◌≤◌, get_or, length, eqb};
ghost use Rattle.bits.specs.Field.{field_at, IsField};

// Where a bit stands: its byte, and its place in that byte, 0 for the highest.
#[derive(Clone, Copy)]
struct BitPlace {
    byte: usize,
    bit: usize,
}

// The one place where a bit offset becomes a byte and a bit.
fn place(at: usize) -> BitPlace
    ensures { (result.byte ≡ at / 8) × (result.bit ≡ at % 8) }
{
    BitPlace {
        byte: at >> 3,
        bit: at & 7,
    }
}

// Byte k, or 0 past the end.
fn byte(s: &[u8], k: usize) -> u64
    ensures { (result ≡ get_or s.now k 0) × (result < 256) }
{
    if k < s.len() { u64::from(s[k]) } else { 0 }
}

// The eight bytes from byte k, which all lie in the slice: a single load, its bytes swapped.
fn word_inside(s: &[u8], k: usize) -> u64
    requires { k + 8 ≤ length s.now }
    ensures { result ≡ field_at s.now (8 * k) 64 }
{
    u64::from_be_bytes([
        s[k],
        s[k + 1],
        s[k + 2],
        s[k + 3],
        s[k + 4],
        s[k + 5],
        s[k + 6],
        s[k + 7],
    ])
}

// The eight bytes from byte k, at most these to the end: past it 0. Met in the last bytes only, and kept small, so that reads are inlined.
fn word_past(s: &[u8], k: usize) -> u64
    requires { (k < 2 ^ 60) × (length s.now ≤ k + 8) }
    ensures { result ≡ field_at s.now (8 * k) 64 }
{
    let n = s.len();
    if n <= k {
        return 0;
    }
    let mut r: u64 = 0;
    for b in &s[k..] {
        r = (r << 8) + u64::from(*b);
    }
    r << (8 * (k + 8 - n))
}

// The eight bytes from byte k; inside the slice a single load.
fn word(s: &[u8], k: usize) -> u64
    requires { k < 2 ^ 60 }
    ensures { result ≡ field_at s.now (8 * k) 64 }
{
    if k + 8 <= s.len() {
        word_inside(s, k)
    } else {
        word_past(s, k)
    }
}

// The 64 bits from bit at, in nine bytes.
fn window(s: &[u8], at: usize) -> u64
    requires { at < 2 ^ 60 }
    ensures { result ≡ field_at s.now at 64 }
{
    let BitPlace { byte: k, bit: o } = place(at);
    if k + 9 <= s.len() {
        return (word_inside(s, k) << o) + (u64::from(s[k + 8]) >> (8 - o));
    }
    word_past(s, k) << o
}

// The w bits from bit at, which lie in eight bytes.
fn in_word(s: &[u8], at: usize, w: usize) -> u64
    requires { (at < 2 ^ 60) × (0 < w) × (w ≤ 57) }
    ensures { IsField s.now at w result }
{
    let BitPlace { byte: k, bit: o } = place(at);
    (word(s, k) << o) >> (64 - w)
}

// The w bits from bit off of what starts at bit at. The types bound the offset, so a caller shows only the width.
pub fn field(s: &[u8], at: u32, off: u32, w: usize) -> u64
    requires { w ≤ 64 }
    ensures { IsField s.now (at + off) w result }
{
    if w == 0 {
        return 0;
    }
    if w <= 57 {
        return in_word(s, at as usize + off as usize, w);
    }
    window(s, at as usize + off as usize) >> (64 - w)
}

// Whether the bit at off of what starts at bit at is one.
pub fn flag(s: &[u8], at: u32, off: u32) -> bool
    ensures { result ≡ eqb (field_at s.now (at + off) 1) 1 }
{
    let BitPlace { byte: k, bit: o } = place(at as usize + off as usize);
    (byte(s, k) >> (7 - o)) & 1 == 1
}

// A field of 32 bits: an id, a number of ticks.
pub fn field32(s: &[u8], at: u32, off: u32) -> u32
    ensures { result ≡ field_at s.now (at + off) 32 }
{
    in_word(s, at as usize + off as usize, 32) as u32
}

// How many bytes n bits reach into.
pub fn bytes_for(n: u32) -> usize
    ensures { result ≡ (n + 7) / 8 }
{
    place(n as usize + 7).byte
}

// How many bits are left of the byte that n bits end in, none where they end with it.
pub fn padding(n: u32) -> usize
    ensures { result ≡ (8 - n % 8) % 8 }
{
    let BitPlace { bit: o, .. } = place(n as usize);
    if o == 0 { 0 } else { 8 - o }
}
