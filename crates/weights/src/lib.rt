// The weights of a store for a day: every byte string is refused by one number or answers with the six weights in slot order.
#![tactic(auto)]

pub mod answer;

ghost use Rattle.std.specs.Prelude.{◌≡◌, List, ℕ, ◌≤◌, length, Ok};
ghost use Rattle.weight_store.specs.Keys.{held_entry};
ghost use Rattle.weight_store.specs.Refusals.{first_refused};
ghost use Rattle.weights.specs.LookUp.{first_taken};
ghost use Rattle.weights.specs.Answers.{look_up, passed_answer, weights_of, lent_weights, weights_left};

use answer::SixWeights;
use layout::{Refusal, SHORT_BUFFER};
use weight_store::Columns;

// A record's length in bits.
const BITS: u64 = 120;

// A small store's records, and their bytes.
const SMALL: usize = 16;

const SMALL_BYTES: usize = 240;

// Which record the slot takes for the day, the first of equals; as many as there are where it has none. It does not depend on the values. A record
// takes over whose key stands from least to the day's last: a later start counts more than any issue.
fn first_taken(keys: &[u64], day: u32, slot: u8) -> usize
    ensures { (values : List ℕ) → result ≡ first_taken (length keys.now) (held_entry keys.now values) day slot }
{
    let mut least = u64::from(slot) * 0x0001_0000_0000_0000;
    let last = least + u64::from(day) * 0x0001_0000 + 0xffff;
    let mut best = keys.len();
    for i in 0..keys.len() {
        let key = keys[i];
        if (least <= key) & (key <= last) {
            best = i;
            least = key + 1;
        }
    }
    best
}

// 18, which has the slot in the offset's stead, or the six, of records of which no two disagree.
fn look_up(records: &Columns<'_>, day: u32) -> Result<SixWeights, Refusal>
    requires { length records.now.keys.now ≤ 256 }
    ensures { result ≡ look_up (length records.now.keys.now) (held_entry records.now.keys.now records.now.values.now) day }
{
    let mut six = [0.0f64; 6];
    for slot in 0..6 {
        let i = first_taken(records.keys, day, slot);
        if i == records.keys.len() {
            return Err(Refusal {
                number: 18,
                offset: u64::from(slot),
            });
        }
        six[usize::from(slot)] = weight_store::weight_back(records.values[i]);
    }
    let [w0, w1, w2, w3, w4, w5] = six;
    Ok(SixWeights {
        w0,
        w1,
        w2,
        w3,
        w4,
        w5,
    })
}

// 17, then the look-up, of records that have passed.
fn passed_answer(records: &Columns<'_>, day: u32) -> Result<SixWeights, Refusal>
    requires { length records.now.keys.now ≤ 256 }
    ensures { result ≡ passed_answer (length records.now.keys.now) (held_entry records.now.keys.now records.now.values.now) day }
{
    let j = records.first_disagreeing();
    if j < records.keys.len() {
        return Err(Refusal {
            number: 17,
            offset: BITS * (j as u64),
        });
    }
    look_up(records, day)
}

// The weights of a store for a day. Its records are read once, into two columns.
fn weights_by(
    store: &[u8],
    day: u32,
    keys: &mut [u64],
    values: &mut [u64],
) -> Result<SixWeights, Refusal>
    requires { (first_refused store.now ≤ length keys.old) × (first_refused store.now ≤ length values.old) }
    ensures { result ≡ weights_of store.now day }
{
    let read = weight_store::read_entries(store, keys, values);
    if weight_store::is_there(store, read) {
        return Err(Refusal {
            number: weight_store::entry_refusal(store, read),
            offset: BITS * u64::from(read),
        });
    }
    let n = usize::from(read);
    let records = Columns {
        keys: &keys[..n],
        values: &values[..n],
    };
    passed_answer(&records, day)
}

// The weights of a store for a day, of which no more than N records are read.
fn weights_within<const N: usize>(store: &[u8], day: u32) -> Result<SixWeights, Refusal>
    requires { (first_refused store.now ≤ N) × (N ≤ 256) }
    ensures { result ≡ weights_of store.now day }
{
    let mut keys = [0u64; N];
    let mut values = [0u64; N];
    weights_by(store, day, &mut keys, &mut values)
}

// The weights of a store for a day. A refusal's offset is that of the record, but 18 has the slot in the offset's stead. Clearing the columns of a full
// store takes longer than looking up a small one.
pub fn weights(store: &[u8], day: u32) -> Result<SixWeights, Refusal>
    ensures { result ≡ weights_of store.now day }
{
    if store.len() <= SMALL_BYTES {
        weights_within::<SMALL>(store, day)
    } else {
        weights_within::<256>(store, day)
    }
}

// The six, first in the places.
fn write_six(six: SixWeights, places: &mut [f64])
    requires { 6 ≤ length places.old }
    ensures { places.new ≡ weights_left (Ok six) places.old }
{
    places[..6].copy_from_slice(&[six.w0, six.w1, six.w2, six.w3, six.w4, six.w5]);
}

// The weights of a store for a day, first in the places. Fewer than six places are refused in front of the store, and a refusal leaves them.
pub fn fill_weights(store: &[u8], day: u32, places: &mut [f64]) -> Result<SixWeights, Refusal>
    ensures answer { result ≡ lent_weights store.now day (length places.old) }
    ensures places { places.new ≡ weights_left (lent_weights store.now day (length places.old))
        places.old }
{
    if places.len() < 6 {
        return Err(SHORT_BUFFER);
    }
    let six = weights(store, day)?;
    write_six(six, places);
    Ok(six)
}
