// What the programs that replay stored passes share: a case of a list, and a pass beside it.
//
// A case is the sheet's length in 16 bits, its bytes, n and m in 8 bits each, the total in 64, the number of held cells in 16, n decisions of 32,
// n × max(n, m) cells of 64, the number of car records in 8, as many sweeps of 8, and 8 bits that are 1 where the Rust built the matrix; the most
// significant byte comes first.
#![tactic(auto)]

ghost use Rattle.std.specs.Prelude.{◌≡◌, ℕ, List, ◌+◌, ◌≤◌, ◌<◌, ◌*◌, Some, length};
ghost use Rattle.stored_passes.specs.Cases.{apart, differing, Inside, Placed, parts_of, case_of, case_differs};
ghost use Rattle.stored_passes.specs.Passes.{pass_differs, all_ones, sheet_in};
ghost use Rattle.stored_passes.specs.Tallies.{Widened, met_of, tallied_of, case_tally, pass_tally};
ghost use Rattle.stored_passes.specs.Printed.{entry_text, difference_text};

use bench::Passed;
use layout::Refusal;
use std::{fmt, io};

// Where the parts of a case lie: the sheet's end, the decisions, the cells, the sweeps and the next case, by byte; and how many idle cars, cells and
// car records are stored.
#[derive(Clone, Copy)]
pub struct Stored {
    pub end: usize,
    pub cars: usize,
    pub size: usize,
    pub decisions: usize,
    pub cells: usize,
    pub sweeps: usize,
    pub records: usize,
    pub next: usize,
}

impl Stored {
    // The sheet of the case at byte at.
    pub fn sheet(self, s: &[u8], at: usize) -> &[u8]
        requires { (at + 2 ≤ self.end) × (self.end ≤ length s.now) }
        ensures { result.now ≡ sheet_in s.now at self }
    {
        &s[at + 2..self.end]
    }
}

// What of a pass an entry is.
#[derive(Clone, Copy)]
pub enum Entry {
    Cars,
    Stops,
    Total,
    Held,
    Decision,
    Cell,
    Sweep,
    Refusal,
}

impl fmt::Display for Entry {
    ghost output = { λ e. Some (entry_text e) };

    fn fmt<W: fmt::Write>(&self, f: &mut fmt::Formatter<W>) -> fmt::Result {
        match *self {
            Entry::Cars => write!(f, "cars"),
            Entry::Stops => write!(f, "stops"),
            Entry::Total => write!(f, "total"),
            Entry::Held => write!(f, "held"),
            Entry::Decision => write!(f, "decision"),
            Entry::Cell => write!(f, "cell"),
            Entry::Sweep => write!(f, "sweep"),
            Entry::Refusal => write!(f, "refusal"),
        }
    }
}

// An entry that differs, by its index among its kind, and both values.
#[derive(Clone, Copy)]
pub struct Difference {
    pub entry: Entry,
    pub index: u64,
    pub ours: u64,
    pub theirs: u64,
}

impl fmt::Display for Difference {
    ghost output = { λ d. Some (difference_text d) };

    fn fmt<W: fmt::Write>(&self, f: &mut fmt::Formatter<W>) -> fmt::Result {
        let Difference {
            entry,
            index,
            ours,
            theirs,
        } = *self;
        write!(f, "{entry} {index}, ours {ours}, theirs {theirs}")
    }
}

// How many entries differ, and the first that does.
#[derive(Clone, Copy)]
pub struct Tally {
    pub differ: u64,
    pub first: Option<Difference>,
}

// What a pass is lent.
#[derive(Drop)]
pub struct Buffers {
    pub decisions: [u32; 32],
    pub matrix: [u64; 2048],
    pub sweeps: [u8; 32],
}

impl Buffers {
    // With ones in every bit.
    pub fn ones() -> Self
        ensures { result ≡ all_ones }
    {
        Buffers {
            decisions: [u32::MAX; 32],
            matrix: [u64::MAX; 2048],
            sweeps: [u8::MAX; 32],
        }
    }
}

// The parts after a sheet that ends at byte end, with n idle cars and w columns.
fn parts(s: &[u8], end: usize, n: usize, w: usize) -> Option<Stored>
    requires { (end + 12 ≤ length s.now) × (n ≤ 32) × (w ≤ 64) }
    ensures { (result ≡ parts_of s.now end n w) × Placed s.now end result }
{
    let size = n * w;
    let left = s.len() - end;
    let front = 12 + 4 * n + 8 * size;
    if left <= front {
        return None;
    }
    let records = lists::number(s, end + front, 1) as usize;
    if 32 < records {
        return None;
    }
    if left < front + 2 + records {
        return None;
    }
    Some(Stored {
        end,
        cars: n,
        size,
        decisions: end + 12,
        cells: end + 12 + 4 * n,
        sweeps: end + front + 1,
        records,
        next: end + front + 2 + records,
    })
}

// The parts of the case at byte at, where it is whole.
pub fn case_at(s: &[u8], at: usize) -> Option<Stored>
    requires { at ≤ length s.now }
    ensures { (result ≡ case_of s.now at) × Placed s.now (at + 2) result }
{
    let left = s.len() - at;
    if left < 2 {
        return None;
    }
    let bytes = lists::number(s, at, 2) as usize;
    if left < bytes + 14 {
        return None;
    }
    let end = at + 2 + bytes;
    let n = lists::number(s, end, 1) as usize;
    let m = lists::number(s, end + 1, 1) as usize;
    let w = n.max(m);
    if 32 < n {
        return None;
    }
    if 64 < w {
        return None;
    }
    parts(s, end, n, w)
}

impl Tally {
    // One entry more.
    fn met(self, entry: Entry, index: usize, ours: u64, theirs: u64) -> Self
        requires { self.differ < 1000000 }
        ensures { (result ≡ met_of self entry index ours theirs) × (result.differ ≡ self.differ + apart ours theirs) }
    {
        if ours == theirs {
            return self;
        }
        let here = Difference {
            entry,
            index: index as u64,
            ours,
            theirs,
        };
        Tally {
            differ: self.differ + 1,
            first: self.first.or(Some(here)),
        }
    }
}

// The entries of a buffer beside those that are stored from byte at, width bytes each.
fn entries_met<T: Copy + Into<u64>>(
    s: &[u8],
    at: usize,
    width: usize,
    ours: &[T],
    entry: Entry,
    t: Tally,
) -> Tally
    requires { (width ≤ 8) × (at + width * length ours.now ≤ length s.now) × (length ours.now ≤ 2048) × (t.differ ≤ 9000) }
    ensures is { (xs : List ℕ) → Widened T.converts ours.now xs
        → (result ≡ tallied_of s.now at width entry xs t (length ours.now))
        × (result.differ ≡ t.differ + differing s.now at width xs (length ours.now)) }
    ensures few { result.differ ≤ t.differ + length ours.now }
{
    let mut d = t;
    for k in 0..ours.len() {
        d = d.met(
            entry,
            k,
            ours[k].into(),
            lists::number(s, at + width * k, width),
        );
    }
    d
}

// A pass beside the case: every entry that is stored is met once.
fn compared(
    s: &[u8],
    p: Stored,
    passed: Passed,
    decisions: &[u32],
    matrix: &[u64],
    sweeps: &[u8],
) -> Tally
    requires { Inside s.now p × (length decisions.now ≡ 32) × (length matrix.now ≡ 2048) × (length sweeps.now ≡ 32) }
    ensures tally { result ≡ case_tally s.now p passed.cars passed.stops passed.total passed.held
        decisions.now matrix.now sweeps.now }
    ensures differ { result.differ ≡ case_differs s.now p passed.cars passed.stops passed.total passed.held
        decisions.now matrix.now sweeps.now }
{
    let none = Tally {
        differ: 0,
        first: None,
    };
    let a = none.met(Entry::Cars, 0, passed.cars, lists::number(s, p.end, 1));
    let b = a.met(
        Entry::Stops,
        0,
        passed.stops,
        lists::number(s, p.end + 1, 1),
    );
    let c = b.met(
        Entry::Total,
        0,
        passed.total,
        lists::number(s, p.end + 2, 8),
    );
    let d = c.met(Entry::Held, 0, passed.held, lists::number(s, p.end + 10, 2));
    let e = entries_met(s, p.decisions, 4, &decisions[..p.cars], Entry::Decision, d);
    let f = entries_met(s, p.cells, 8, &matrix[..p.size], Entry::Cell, e);
    entries_met(s, p.sweeps, 1, &sweeps[..p.records], Entry::Sweep, f)
}

// The answer of a pass beside the case; a refusal counts as one difference.
pub fn answered(
    s: &[u8],
    p: Stored,
    answer: Result<Passed, Refusal>,
    decisions: &[u32],
    matrix: &[u64],
    sweeps: &[u8],
) -> Tally
    requires { Inside s.now p × (length decisions.now ≡ 32) × (length matrix.now ≡ 2048) × (length sweeps.now ≡ 32) }
    ensures tally { result ≡ pass_tally s.now p answer decisions.now matrix.now sweeps.now }
    ensures differ { result.differ ≡ pass_differs s.now p answer decisions.now matrix.now sweeps.now }
{
    match answer {
        Err(refusal) => Tally {
            differ: 1,
            first: Some(Difference {
                entry: Entry::Refusal,
                index: 0,
                ours: u64::from(refusal.number),
                theirs: 0,
            }),
        },
        Ok(passed) => compared(s, p, passed, decisions, matrix, sweeps),
    }
}

// The first difference of case number k, at byte at, where it has one. The name is bytes: a `&str` would ask more of callers.
pub fn report(rt: &impl Print, name: &[u8], k: u64, at: usize, t: Tally) -> io::Result<()> {
    let Some(first) = t.first else {
        return Ok(());
    };
    rt.write_all(name)?;
    println!(rt; "{k} at byte {at}: {first}")
}
