// Gives stored sheets, with the choices and prices that sites sent of them, to the grader and holds its answers and what it leaves in the matrix to
// the stored ones. Prints each that differs, and how many were compared.
//
// The list was written by tools/oracle (`oracle list grades`): the cells are those of documents 01 and 02, the answers those of a second grader, and
// the prices of least choices those of a solver of its own. A case is, in bytes: the sheet's length in 2; how many columns, prices of cars and prices
// of columns were sent, in 1 each; the cells that are lent and those that are written, in 2 each; the answer's number in 1, its offset in 4, and 1
// for "least" in 1. Then the sheet, the columns in 4 each, the prices of cars and those of columns in 8 each (one below zero as 2^63 and how far it
// lies below -1), and the written cells in 8 each. The most significant byte comes first.
//
// Where the list cannot be read or the last line cannot be written, `main` ends with that error; a line before that is passed over where it cannot be
// written.
#![tactic(auto)]

ghost use Rattle.std.specs.Prelude.{◌≡◌, ◌+◌, ◌-◌, ◌*◌, ◌≤◌, ◌<◌, length, ℤ, IfSome};
ghost use Rattle.laws.specs.Folds.{any};
ghost use Rattle.replay_grades.specs.Cases.{answer_of, head_at, whole_at, signed, left_in, misplaced, apart, broken, differ};
ghost use Rattle.replay_grades.specs.Cases.{end_of, compared_at, case_of, Small, Fitting, Replayed};

use grade::Graded;
use layout::Refusal;
use lists::{Case, Cases, Tally, Verdict};
use std::io;

// An answer as the list stores it: a refusal or none, and 1 for "least". A stored one may have any number for it.
#[derive(Clone, Copy, PartialEq, Eq)]
struct Answer {
    verdict: Verdict,
    least: u64,
}

// The head of a case.
#[derive(Clone, Copy)]
struct Head {
    bytes: usize,
    columns: usize,
    cars: usize,
    prices: usize,
    lent: usize,
    cells: usize,
    stored: Answer,
}

// The list of stored choices; those that are stored as least are counted apart.
#[derive(Clone, Copy)]
struct Choices;

impl Cases for Choices {
    ghost case_of = { case_of };

    fn case_at(self, rt: &impl Print, s: &[u8], at: usize) -> Option<Case> {
        let h = whole_at(s, at)?;
        Some(compare(rt, s, at, h))
    }
}

fn answer_of(g: Result<Graded, Refusal>) -> Answer
    ensures { result ≡ answer_of g }
{
    match g {
        Ok(Graded::Least) => Answer {
            verdict: Verdict::default(),
            least: 1,
        },
        Ok(Graded::NotShown) => Answer {
            verdict: Verdict::default(),
            least: 0,
        },
        Err(refusal) => Answer {
            verdict: Verdict::from(refusal),
            least: 0,
        },
    }
}

fn head_at(s: &[u8], at: usize) -> Head
    requires { at + 15 ≤ length s.now }
    ensures is { result ≡ head_at s.now at }
    ensures small { Small result }
{
    Head {
        bytes: lists::number(s, at, 2) as usize,
        columns: lists::number(s, at + 2, 1) as usize,
        cars: lists::number(s, at + 3, 1) as usize,
        prices: lists::number(s, at + 4, 1) as usize,
        lent: lists::number(s, at + 5, 2) as usize,
        cells: lists::number(s, at + 7, 2) as usize,
        stored: Answer {
            verdict: lists::verdict_at(s, at + 9),
            least: lists::number(s, at + 14, 1),
        },
    }
}

// Whether the case is longer than the bytes that are left, or larger than there is room for.
#[tactic(auto, unfolding(crate::specs::Cases::broken))]
fn is_broken(h: Head, left: usize) -> bool
    requires { Small h }
    ensures { result ≡ broken h left }
{
    if left < 15 + h.bytes + 4 * h.columns + 8 * h.cars + 8 * h.prices + 8 * h.cells {
        return true;
    }
    if 128 < h.columns || 128 < h.cars || 128 < h.prices {
        return true;
    }
    2052 < h.lent || h.lent < h.cells
}

// The head of the case at byte at, where a whole one stands there. Not one function with that of replay_choices: the heads have other fields, and are
// broken by other tests; the law is one (lists: Heads).
fn whole_at(s: &[u8], at: usize) -> Option<Head>
    requires { at < length s.now }
    ensures is { result ≡ whole_at s.now at }
    ensures fits { IfSome result (λ h. Fitting h (length s.now - at)) }
{
    let left = s.len() - at;
    if left < 15 {
        return None;
    }
    let h = head_at(s, at);
    if is_broken(h, left) { None } else { Some(h) }
}

// A whole number of either sign.
fn signed(x: u64) -> i64
    ensures { result ≡ signed x }
{
    if x < 9_223_372_036_854_775_808 {
        return x as i64;
    }
    let below = (x - 9_223_372_036_854_775_808) as i64;
    -1 - below
}

// What must stand in cell k: one of the cells from byte at on, or 99 past them.
fn left_in(s: &[u8], at: usize, cells: usize, k: usize) -> u64
    requires { (cells ≤ 2052) × (at + 8 * cells ≤ length s.now) }
    ensures { result ≡ left_in s.now at cells k }
{
    if k < cells {
        return lists::number(s, at + 8 * k, 8);
    }
    99
}

// Whether some cell is not what must stand there.
fn is_misplaced<'a>(s: &'a [u8], at: usize, cells: usize, left: &'a [u64]) -> bool
    requires { (cells ≤ 2052) × (at + 8 * cells ≤ length s.now) }
    ensures { result ≡ any (misplaced s.now at cells left.now) (length left.now) }
{
    (0..left.len()).any(|k| left[k] != left_in(s, at, cells, k))
}

// Whether the answer, or what it left in the matrix, is not as stored; the cells stand from byte at on.
fn is_apart<'a>(s: &'a [u8], at: usize, h: Head, got: Answer, left: &'a [u64]) -> bool
    requires { (h.cells ≤ 2052) × (at + 8 * h.cells ≤ length s.now) }
    ensures { result ≡ apart s.now at h got left.now }
{
    got != h.stored || is_misplaced(s, at, h.cells, left)
}

// Whether the grader differs from what is stored of the case at byte at.
fn differs(s: &[u8], at: usize, h: Head) -> bool
    requires { (at < length s.now) × Fitting h (length s.now - at) }
    ensures { result ≡ differ s.now at h }
{
    let start = at + 15;
    let end = start + h.bytes;
    let cars = end + 4 * h.columns;
    let prices = cars + 8 * h.cars;
    let cells = prices + 8 * h.prices;
    let mut columns = [0u32; 128];
    let mut u = [0i64; 128];
    let mut v = [0i64; 128];
    let mut matrix = [99u64; 2052];
    let columns = &mut columns[..h.columns];
    let u = &mut u[..h.cars];
    let v = &mut v[..h.prices];
    let matrix = &mut matrix[..h.lent];
    lists::fill(s, end, 4, |x| x as u32, columns);
    lists::fill(s, cars, 8, signed, u);
    lists::fill(s, prices, 8, signed, v);
    let got = answer_of(grade::grade(&s[start..end], columns, u, v, matrix));
    is_apart(s, cells, h, got, matrix)
}

// Where the case at byte at ends.
fn end_of(s: &[u8], at: usize, h: Head) -> usize
    requires { end_of at h ≤ length s.now }
    ensures { result ≡ end_of at h }
{
    at + 15 + h.bytes + 4 * h.columns + 8 * h.cars + 8 * h.prices + 8 * h.cells
}

// The case at byte at compared.
fn compare(rt: &impl Print, s: &[u8], at: usize, h: Head) -> Case
    requires { (at < length s.now) × Fitting h (length s.now - at) }
    ensures { result ≡ compared_at s.now at h }
{
    Case {
        next: end_of(s, at, h),
        marked: h.stored.least == 1,
        differs: lists::noted(rt, at, differs(s, at, h)),
    }
}

fn run(rt: &impl Print, s: &[u8]) -> Tally<Choices>
    ensures { Replayed s.now result }
{
    lists::compare_all(rt, s, Choices)
}

fn main(rt: HostRuntime) -> io::Result<()> {
    let mut buffer = [0u8; 327680];
    let list = lists::read_list(&mut rt.reader(), &mut buffer)?;
    let t = run(&rt, list);
    println!(rt;
        "{} grades compared, {} least, {} differ",
        t.compared, t.marked, t.differ
    )
}
