// Reads stored sheets and holds the rank of each idle car for each pending stop to the stored one, bit by bit. Prints the first that differs, and how
// many were compared.
//
// The list was made by `oracle list ranks 1 crates/replay_ranks/stdin` (tools/oracle): the ranks are those that the published Rust gives, before
// scaling. A case is the sheet's length in 16 bits and its bytes, n and m in 8 bits each, n indices of car records and m of stop records in 8 bits
// each, and row by row for each pair 8 bits that are 1 where there is a rank, and its 64 bits; these are 0 where there is none, and for a zero of
// either sign, which the Rust leaves open. The most significant byte comes first.
//
// tools/oracle/README.md counts what the pairs show.
//
// A rank that differs shows: with the last bit of the list's first rank changed, the program prints its car and stop, both ranks, and in its last
// line that one differs.
//
// Where the list cannot be read or the last line cannot be written, `main` ends with that error; a line before that is passed over where it cannot be
// written.
#![tactic(auto)]

ghost use Rattle.std.specs.Prelude.{◌≡◌, ◌+◌, ◌*◌, ◌^◌, ◌≤◌, ◌<◌, length, Ok};
ghost use Rattle.laws.specs.Folds.{count};
ghost use Rattle.bits.specs.Field.{IsField};
ghost use Rattle.layout.specs.Records.{sheet_of};
ghost use Rattle.layout.specs.Verdict.{verdict};
ghost use Rattle.assignment.specs.Cells.{rank};
ghost use Rattle.cells.specs.Survey.{SeenStops};
ghost use Rattle.replay_ranks.specs.Ranks.{bits_of, answer_of, answer_for, differs, case_at, pair_at, refused_at, compared_by, turn_of, Inside};
ghost use Rattle.replay_ranks.specs.Ranks.{Counted, Replayed};

use layout::Counts;
use lists::{Replay, Step};
use manifest::Stops;
use pending::StopMasks;
use riders::Destinations;
use std::{fmt, io};

// An answer as the list stores it: a mark, 1 where there is a rank and 0 where there is none, and the rank's bits. A stored one may have any mark
// beside any bits.
#[derive(Clone, Copy, PartialEq, Eq)]
struct Answer {
    ranked: u64,
    bits: u64,
}

// The bits in hexadecimal, or none. Before bits of what is neither stands its mark.
impl fmt::Display for Answer {
    fn fmt<W: fmt::Write>(&self, f: &mut fmt::Formatter<W>) -> fmt::Result {
        let ranked = self.ranked;
        let bits = self.bits;
        match (ranked, bits) {
            (0, 0) => write!(f, "none"),
            (1, _) => write!(f, "{bits:016x}"),
            _ => write!(f, "mark {ranked} {bits:016x}"),
        }
    }
}

// A car record and a stop record, and what is stored of them.
#[derive(Clone, Copy)]
struct Pair {
    car: u64,
    stop: u64,
    stored: Answer,
}

// Where a case's sheet ends, how many cars, stops and pairs it has, and where the next case starts.
#[derive(Clone, Copy)]
struct Case {
    end: usize,
    cars: usize,
    stops: usize,
    pairs: usize,
    next: usize,
}

#[derive(Clone, Copy, Default)]
struct Totals {
    sheets: u64,
    ranks: u64,
    differ: u64,
}

impl Replay for Totals {
    ghost turn_of = { turn_of };

    ghost can_turn = { λ s at t. (length s ≤ 262144) × Counted at t };

    fn turn(self, rt: &impl Print, s: &[u8], at: usize) -> Step<Self> {
        let case = case_at(s, at);
        if s.len() < case.next {
            let totals = Totals {
                differ: self.differ + 1,
                ..self
            };
            return lists::cut(rt, "case", s, at, totals);
        }
        let start = at + 2;
        let end = case.end;
        compare(rt, s, &s[start..end], at, case, self)
    }
}

// The bits of a double; of a zero of either sign 0.
fn bits_of(x: f64) -> u64
    ensures { result ≡ bits_of x }
{
    if x != x {
        return 0x7ff8_0000_0000_0000;
    }
    if x == 0.0 {
        return 0;
    }
    f64::to_bits(x)
}

fn answer_of(rank: Option<f64>) -> Answer
    ensures { result ≡ answer_of rank }
{
    match rank {
        None => Answer { ranked: 0, bits: 0 },
        Some(x) => Answer {
            ranked: 1,
            bits: bits_of(x),
        },
    }
}

// The rank of car i for stop j, where the stops and the masks of an accepted sheet are at hand.
fn rank_by<'a>(
    s: &'a [u8],
    c: Counts,
    i: u32,
    j: usize,
    ids: &'a [u32],
    xs: &'a [f64],
    masks: StopMasks,
) -> Option<f64>
    requires s_value { (verdict s.now ≡ Ok c) × (i < c.cars) × (j < c.stops) × (length ids.now ≡ 64) × (length xs.now ≡ 128) }
    requires seen_stops { SeenStops (sheet_of s.now c) ids.now xs.now masks }
    ensures { result ≡ rank (sheet_of s.now c) i j }
{
    let mut dests = [0.0f64; 512];
    let mut sides = [0.0f64; 512];
    let row = cells::row_of(s, c, i, 65535, ids, xs, masks, &mut dests, &mut sides);
    let mut sums = [0.0f64; 320];
    let someone = cells::waiting(s, c, ids, xs, masks.calls, &mut sums);
    let v = rows::waiters_at(someone, masks.calls, &sums, j);
    let stops = Stops {
        ids,
        points: xs,
        count: c.stops as usize,
    };
    let bound = Destinations {
        along: &dests,
        across: &sides,
    };
    let halts = etd::intervening_stops(row.car.position.along, xs[j], row.demand, &stops);
    ranking::rank(&row, &bound, v, &stops, halts, j)
}

// The rank of car i for stop j of an accepted sheet.
fn rank_of(s: &[u8], c: Counts, i: u32, j: usize) -> Option<f64>
    requires { (verdict s.now ≡ Ok c) × (i < c.cars) × (j < c.stops) }
    ensures { result ≡ rank (sheet_of s.now c) i j }
{
    let mut ids = [0u32; 64];
    let mut xs = [0.0f64; 128];
    let masks = cells::see_stops(s, c, &mut ids, &mut xs);
    rank_by(s, c, i, j, &ids, &xs, masks)
}

// What the proved functions answer of a pair. Where there is no such car or stop, 256, which no byte holds, so that it differs from all that is
// stored.
fn answer_for(s: &[u8], c: Counts, i: u64, j: u64) -> Answer
    requires { verdict s.now ≡ Ok c }
    ensures { result ≡ answer_for (sheet_of s.now c) i j }
{
    let none = Answer {
        ranked: 256,
        bits: 0,
    };
    if u64::from(c.cars) <= i {
        return none;
    }
    if u64::from(c.stops) <= j {
        return none;
    }
    answer_of(rank_of(s, c, i as u32, j as usize))
}

// The w bits from byte at on.
fn number(s: &[u8], at: usize, w: usize) -> u64
    requires { (at < 2 ^ 28) × (w ≤ 64) }
    ensures { IsField s.now (8 * at) w result }
{
    bits::field(s, 8 * (at as u32), 0, w)
}

// The case at byte at.
fn case_at(s: &[u8], at: usize) -> Case
    requires { at ≤ 262144 }
    ensures { result ≡ case_at s.now at }
{
    let end = at + 2 + number(s, at, 16) as usize;
    let cars = number(s, end, 8) as usize;
    let stops = number(s, end + 1, 8) as usize;
    let pairs = cars * stops;
    Case {
        end,
        cars,
        stops,
        pairs,
        next: end + 2 + cars + stops + 9 * pairs,
    }
}

// Where the stored answer to pair k starts: after the indices, 9 bytes for each pair before it.
fn answer_at(case: Case, k: usize) -> usize
    requires { Inside case × (k < case.pairs) }
    ensures { result ≡ case.end + 2 + case.cars + case.stops + 9 * k }
{
    case.end + 2 + case.cars + case.stops + 9 * k
}

// Pair k of a case, row by row.
fn pair_at(s: &[u8], case: Case, k: usize) -> Pair
    requires { Inside case × (k < case.pairs) }
    ensures { result ≡ pair_at s.now case k }
{
    let first = case.end + 2;
    let stops = case.stops;
    let at = answer_at(case, k);
    let car = number(s, first + k / stops, 8);
    let stop = number(s, first + case.cars + k % stops, 8);
    let stored = Answer {
        ranked: number(s, at, 8),
        bits: number(s, at + 1, 64),
    };
    Pair { car, stop, stored }
}

// Whether a pair of the case at byte at differs. It is printed if it is the first.
fn differs(rt: &impl Print, s: &[u8], c: Counts, p: Pair, at: usize, first: bool) -> bool
    requires { verdict s.now ≡ Ok c }
    ensures { result ≡ differs (sheet_of s.now c) p }
{
    let Pair { car, stop, stored } = p;
    let got = answer_for(s, c, car, stop);
    if got == stored {
        return false;
    }
    if first {
        let _ = println!(rt;
            "the case at byte {at}: car {car} stop {stop} got {got}, expected {stored}"
        );
    }
    true
}

// How many pairs of the case at byte at, which has the accepted sheet b, differ.
fn count_differ<'a>(
    rt: &impl Print,
    s: &'a [u8],
    b: &'a [u8],
    c: Counts,
    case: Case,
    at: usize,
    first: bool,
) -> u64
    requires { (verdict b.now ≡ Ok c) × Inside case }
    ensures { result ≡ count (λ k. differs (sheet_of b.now c) (pair_at s.now case k)) case.pairs }
{
    let mut d: u64 = 0;
    for k in 0..case.pairs {
        let p = pair_at(s, case, k);
        d += u64::from(differs(rt, b, c, p, at, first && d == 0));
    }
    d
}

// A refused sheet counts as one that differs.
fn refused(rt: &impl Print, t: Totals, case: Case, at: usize) -> Step<Totals>
    requires { Counted at t × (at < case.next) × (case.next ≤ 262144) }
    ensures { result ≡ refused_at case t }
{
    let _ = println!(rt; "no sheet at byte {at}");
    Step {
        next: case.next,
        totals: Totals {
            sheets: t.sheets + 1,
            differ: t.differ + 1,
            ..t
        },
    }
}

// The case at byte at, compared; b is its sheet.
fn compare<'a>(
    rt: &impl Print,
    s: &'a [u8],
    b: &'a [u8],
    at: usize,
    case: Case,
    t: Totals,
) -> Step<Totals>
    requires { Counted at t × Inside case × (at + 4 + 9 * case.pairs ≤ case.next) }
    ensures { result ≡ compared_by (verdict b.now) s.now b.now case t }
{
    match sheet::read(b) {
        Err(_) => refused(rt, t, case, at),
        Ok(c) => Step {
            next: case.next,
            totals: Totals {
                sheets: t.sheets + 1,
                ranks: t.ranks + case.pairs as u64,
                differ: t.differ + count_differ(rt, s, b, c, case, at, t.differ == 0),
            },
        },
    }
}

fn run(rt: &impl Print, s: &[u8]) -> Totals
    requires { length s.now ≤ 262144 }
    ensures { Replayed s.now result }
{
    lists::replay_all(rt, s, Totals::default())
}

fn main(rt: HostRuntime) -> io::Result<()> {
    let mut buffer = [0u8; 262144];
    let list = lists::read_list(&mut rt.reader(), &mut buffer)?;
    let t = run(&rt, list);
    println!(rt;
        "{} sheets, {} ranks compared, {} differ",
        t.sheets, t.ranks, t.differ
    )
}
