// Gives stored matrices to the matcher and holds its answers and what it leaves in the places to the stored ones. Prints each that differs, and
// how many were compared.
//
// The list was written by tools/choices, a solver of another kind, which is held to an exhaustive search on the small matrices. It has 1,000 random
// matrices of up to 4 cars and 5 columns with ties and sentinels, every matrix of 2 cars and 2 columns with cells 0, 1, the ceiling and the sentinel
// and others where equal totals leave unlike numbers of cars standing, larger ones of up to 32 cars and 64 columns, and each thing that the matcher
// refuses. (Every matrix of 2 cars and 3 columns with cells 0 to 2 is a line of the program every_matrix.) A case is the numbers of cars, columns and
// places and the bytes of a cell, one byte each, the number of cells in 16 bits, and the cells; then the answer's number in 8 bits, its total in 64,
// and a byte for what each place must hold, 99 where nothing is written. The most significant byte comes first.
//
// Where the list cannot be read or the last line cannot be written, `main` ends with that error; a line before that is passed over where it cannot be
// written.
#![tactic(auto)]

ghost use Rattle.std.specs.Prelude.{◌≡◌, ◌+◌, ◌-◌, ◌*◌, ◌≤◌, ◌<◌, length, IfSome};
ghost use Rattle.laws.specs.Folds.{any};
ghost use Rattle.replay_choices.specs.Cases.{answer_of, stored_at, head_at, whole_at, broken, misplaced, apart, differ, compared_at, case_of};
ghost use Rattle.replay_choices.specs.Cases.{Fitting, Replayed};

use lists::{Case, Cases, Tally};
use std::io;

// An answer as the list stores it: 1 and the total of a choice, or 0 and 0. A stored one may have any number beside any total.
#[derive(Clone, Copy, PartialEq, Eq)]
struct Answer {
    found: u64,
    total: u64,
}

// The head of a case.
#[derive(Clone, Copy)]
struct Head {
    cars: usize,
    columns: usize,
    places: usize,
    width: usize,
    cells: usize,
}

// The list of stored matrices.
#[derive(Clone, Copy)]
struct Matrices;

impl Cases for Matrices {
    ghost case_of = { case_of };

    fn case_at(self, rt: &impl Print, s: &[u8], at: usize) -> Option<Case> {
        let h = whole_at(s, at)?;
        Some(compare(rt, s, at, h))
    }
}

fn answer_of(m: Option<u64>) -> Answer
    ensures { result ≡ answer_of m }
{
    match m {
        Some(total) => Answer { found: 1, total },
        None => Answer { found: 0, total: 0 },
    }
}

// The stored answer from byte at on.
fn stored_at(s: &[u8], at: usize) -> Answer
    requires { at + 9 ≤ length s.now }
    ensures { result ≡ stored_at s.now at }
{
    Answer {
        found: lists::number(s, at, 1),
        total: lists::number(s, at + 1, 8),
    }
}

fn head_at(s: &[u8], at: usize) -> Head
    requires { at + 15 ≤ length s.now }
    ensures { result ≡ head_at s.now at }
{
    Head {
        cars: lists::number(s, at, 1) as usize,
        columns: lists::number(s, at + 1, 1) as usize,
        places: lists::number(s, at + 2, 1) as usize,
        width: lists::number(s, at + 3, 1) as usize,
        cells: lists::number(s, at + 4, 2) as usize,
    }
}

// Whether the case is longer than the bytes that are left, or larger than there is room for.
#[tactic(auto, unfolding(crate::specs::Cases::broken))]
fn is_broken(h: Head, left: usize) -> bool
    ensures is { result ≡ broken h left }
{
    if 8 < h.width || 64 < h.places || 2048 < h.cells {
        return true;
    }
    left < 15 + h.cells * h.width + h.places
}

// The head of the case at byte at, where a whole one stands there. Not one function with that of replay_grades: the heads have other fields, and are
// broken by other tests.
fn whole_at(s: &[u8], at: usize) -> Option<Head>
    requires { at < length s.now }
    ensures is { result ≡ whole_at s.now at }
    ensures fits { IfSome result (λ h. Fitting h (length s.now - at)) }
{
    let left = s.len() - at;
    if left < 15 {
        return None;
    }
    let h = head_at(s, at);
    if is_broken(h, left) { None } else { Some(h) }
}

// Whether some place does not hold what is stored from byte at on.
fn is_misplaced(s: &[u8], at: usize, places: &[u32]) -> bool
    requires { at + length places.now ≤ length s.now }
    ensures { result ≡ any (misplaced s.now at places.now) (length places.now) }
{
    (0..places.len()).any(|k| u64::from(places[k]) != lists::number(s, at + k, 1))
}

// Whether the answer, or what it left in the places, is not as stored from byte at on.
fn is_apart(s: &[u8], at: usize, got: Answer, places: &[u32]) -> bool
    requires { at + 9 + length places.now ≤ length s.now }
    ensures { result ≡ apart s.now at got places.now }
{
    got != stored_at(s, at) || is_misplaced(s, at + 9, places)
}

// Whether the matcher differs from what is stored of the case at byte at.
fn differs(s: &[u8], at: usize, h: Head) -> bool
    requires { (at < length s.now) × Fitting h (length s.now - at) }
    ensures { result ≡ differ s.now at h }
{
    let mut cells = [0u64; 2048];
    let mut places = [99u32; 64];
    let cells = &mut cells[..h.cells];
    let places = &mut places[..h.places];
    lists::fill(s, at + 6, h.width, |x| x, cells);
    let got = answer_of(matcher::assign(h.cars, h.columns, cells, places));
    is_apart(s, at + 6 + h.cells * h.width, got, places)
}

// The case at byte at compared.
fn compare(rt: &impl Print, s: &[u8], at: usize, h: Head) -> Case
    requires { (at < length s.now) × Fitting h (length s.now - at) }
    ensures { result ≡ compared_at s.now at h }
{
    Case {
        next: at + 6 + h.cells * h.width + 9 + h.places,
        marked: false,
        differs: lists::noted(rt, at, differs(s, at, h)),
    }
}

fn run(rt: &impl Print, s: &[u8]) -> Tally<Matrices>
    ensures { Replayed s.now result }
{
    lists::compare_all(rt, s, Matrices)
}

fn main(rt: HostRuntime) -> io::Result<()> {
    let mut buffer = [0u8; 327680];
    let list = lists::read_list(&mut rt.reader(), &mut buffer)?;
    let t = run(&rt, list);
    println!(rt; "{} matrices compared, {} differ", t.compared, t.differ)
}
