// The store of weights: records that each set one of the six weights from a day on. What refuses a store record by record, and by two records that
// disagree. Records are compared as two columns: a record's key, which is its setting, start day and issue in one number, and its value. A record's
// number is a u16, so that its bit offset always fits.
#![tactic(auto)]

ghost use Rattle.std.specs.Prelude.{◌≡◌, ◌++◌, ◌≤◌, ◌<◌, ltb, length, drop, get_or};
ghost use Rattle.laws.specs.Tables.{tab};
ghost use Rattle.layout.specs.Verdict.{first_of};
ghost use Rattle.weight_store.specs.Entries.{entry_count};
ghost use Rattle.weight_store.specs.Keys.{key_of, value_of, unpacked, held_entry};
ghost use Rattle.weight_store.specs.Values.{same_value, weight_back};
ghost use Rattle.weight_store.specs.Refusals.{refusal2_store, entry_rules, entry_refusal, first_refused, disagree, disagrees_earlier};
ghost use Rattle.weight_store.specs.Refusals.{first_disagreeing};

// A record's length in bits and in bytes.
const BITS: u32 = 120;

const BYTES: usize = 15;

// The bit where the value starts; the key stands before it.
const VALUE: u32 = 56;

// The first key with a setting above 5.
const PAST_SLOTS: u64 = 0x0006_0000_0000_0000;

// Setting, start day and issue of record i, in 8, 32 and 16 bits; past the end zeros.
fn key_at(s: &[u8], i: u16) -> u64
    ensures { result ≡ key_of s.now i }
{
    bits::field(s, BITS * u32::from(i), 0, 56)
}

// The 64 bits of its value.
fn value_at(s: &[u8], i: u16) -> u64
    ensures { result ≡ value_of s.now i }
{
    bits::field(s, BITS * u32::from(i), VALUE, 64)
}

// Whether a bit of record i stands in the store.
pub fn is_there(s: &[u8], i: u16) -> bool
    ensures { result ≡ ltb i (entry_count s.now) }
{
    BYTES * usize::from(i) < s.len()
}

// 2: record i is cut short.
fn is_short(s: &[u8], i: u16) -> bool
    ensures { result ≡ refusal2_store s.now i }
{
    s.len() < BYTES * usize::from(i) + BYTES
}

// Whether two values are the same, bit for bit.
fn same_value(a: u64, b: u64) -> bool
    ensures { result ≡ same_value a b }
{
    a == b
}

// The weight that comes back of a value: the double of the stored bits.
pub fn weight_back(stored: u64) -> f64
    ensures { result ≡ weight_back stored }
{
    fp::double(stored)
}

// The number by which record i is refused that has this key and value, 0 for none.
fn refusal_of(s: &[u8], i: u16, key: u64, value: u64) -> u32
    ensures { result ≡ first_of (entry_rules s.now i (unpacked key value)) }
{
    if is_short(s, i) {
        return 2;
    }
    if 256 <= i {
        return 7;
    }
    if PAST_SLOTS <= key {
        return 8;
    }
    if fp::is_mass(fp::double(value)) {
        0
    } else {
        11
    }
}

// The number by which record i is refused, 0 for none.
pub fn entry_refusal(s: &[u8], i: u16) -> u32
    ensures { result ≡ entry_refusal s.now i }
{
    refusal_of(s, i, key_at(s, i), value_at(s, i))
}

// The first record that is refused, the number of records where none is; how many there are is not known before. Keys and values of the records before it are written.
pub fn read_entries(s: &[u8], keys: &mut [u64], values: &mut [u64]) -> u16
    requires { (first_refused s.now ≤ length keys.old) × (first_refused s.now ≤ length values.old) }
    ensures first { result ≡ first_refused s.now }
    ensures keys { (length keys.new ≡ length keys.old)
        × (keys.new ≡ tab (key_of s.now) result ++ drop result keys.old) }
    ensures values { (length values.new ≡ length values.old)
        × (values.new ≡ tab (value_of s.now) result ++ drop result values.old) }
{
    let mut i: u16 = 0;
    while is_there(s, i) {
        let key = key_at(s, i);
        let value = value_at(s, i);
        if refusal_of(s, i, key, value) != 0 {
            return i;
        }
        let at = usize::from(i);
        keys[at] = key;
        values[at] = value;
        i += 1;
    }
    i
}

// Records as two columns: the key of each, and its value.
#[derive(Clone, Copy)]
pub struct Columns<'a> {
    pub keys: &'a [u64],
    pub values: &'a [u64],
    ghost pairs: { length keys.now ≤ length values.now },
}

impl Columns<'_> {
    // Whether record i agrees with a key but not with its value.
    fn disagrees_at(&self, i: usize, key: u64, value: u64) -> bool
        requires { i < length self.now.keys.now }
        ensures { result ≡ disagree (held_entry self.now.keys.now self.now.values.now i) (unpacked key value) }
    {
        self.keys[i] == key && !same_value(self.values[i], value)
    }

    // Whether record j disagrees with an earlier one.
    fn disagrees_earlier(&self, j: usize) -> bool
        requires { j < length self.now.keys.now }
        ensures { result ≡ disagrees_earlier (held_entry self.now.keys.now self.now.values.now) j }
    {
        let key = self.keys[j];
        let value = self.values[j];
        for i in 0..j {
            if self.disagrees_at(i, key, value) {
                return true;
            }
        }
        false
    }

    // The first record that disagrees with an earlier one; as many as there are where none does.
    pub fn first_disagreeing(&self) -> usize
        ensures { result ≡ first_disagreeing (length self.now.keys.now) (held_entry self.now.keys.now self.now.values.now) }
    {
        let n = self.keys.len();
        for j in 0..n {
            if self.disagrees_earlier(j) {
                return j;
            }
        }
        n
    }
}
