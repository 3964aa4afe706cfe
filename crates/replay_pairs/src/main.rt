// Demand 3 and request F-14, run: passes stored pairs through `bench::pass_two` or `bars::pass_barred` and holds both answers and all buffers to what
// is stored of each: idle cars, pending stops, total, held cells, decisions, cells and sweeps. A pair is one sheet twice, the second time with its
// candidate limit raised or lifted, or with bars added, which is tested too. Prints the first difference of each pass that has one, and how much was
// compared.
//
// The list was made by `oracle list pairs 1 FILE` (tools/oracle) from the published Rust files. A pair is two cases, one after the other, each as in
// the list of replay_passes (crate stored_passes). The pairs, and in how many of them the total falls:
//                           ETD        RSR       SCAN
//     raised by 1         25   18    23   16    20   14
//     raised by 2 or more 22   14    24   16    19   12
//     lifted              24   15    24   15    23   14
//     bars, no limit      13    0    13    0    13    0
//     bars, a limit       17    4    18    7    17    6
//
// Pairs are counted from 0. It was tried that it can fail: a bit flipped in a stored number of stops, total, number of held cells, decision, cell or
// sweep of either pass is printed with both values. Sheets that differ in a further byte, whose limits are equal though no bar is added, or the second
// of which lacks a bar of the first, are named, and so is a list without its last byte.
//
// Where the list cannot be read or the last line cannot be written, `main` ends with that error; a line before that is passed over where it cannot be
// written.
#![tactic(auto)]

ghost use Rattle.std.specs.Prelude.{◌≡◌, ◌+◌, ◌≤◌, ◌<◌, length};
ghost use Rattle.bench.specs.Answers.{total_of};
ghost use Rattle.stored_passes.specs.Cases.{Inside, case_of};
ghost use Rattle.stored_passes.specs.Passes.{differs_at};
ghost use Rattle.layout.specs.Offsets.{Small};
ghost use Rattle.bench.specs.Done.{lent, done, pass_of};
ghost use Rattle.replay_pairs.specs.Pairs.{of_limit, agree_at, agree, is_pair};
ghost use Rattle.replay_pairs.specs.Added.{of_mask, of_masks, added_at, added, is_barred, is_limited};
ghost use Rattle.replay_pairs.specs.Replay.{lower_at, change_of, is_one, tallied, Room, compared_at, cut_at, second_by, turn_of, Counted, Turned, Replayed};

use bench::{Answers, Passed};
use layout::{Counts, Refusal, car};
use lists::{Replay, Step};
use std::io;
use stored_passes::{Buffers, Stored, Tally};

// The list's bytes that are read.
const LIMIT: usize = 262144;

// How the second sheet of a pair differs from the first: its limit is raised, or bars are added. And whether the first has a limit.
#[derive(Clone, Copy)]
struct Change {
    raised: bool,
    barred: bool,
    limited: bool,
}

// Both passes of a pair beside their cases, and whether the second total is below the first.
#[derive(Clone, Copy)]
struct Compared {
    first: Tally,
    second: Tally,
    lower: bool,
}

// Pairs; those with the limit raised, and of them with a lower total; those with bars added, and of them under a limit and with a lower total. Not
// a `lists::Tally`: that has one kind apart, and each of its counts grows by at most one a case; cells and differences grow by more.
#[derive(Clone, Copy, Default)]
struct Totals {
    pairs: u64,
    raised: u64,
    lower: u64,
    barred: u64,
    limited: u64,
    fallen: u64,
    cells: u64,
    differ: u64,
}

// The bytes of a sheet's limit.
fn of_limit(k: usize) -> bool
    ensures { result ≡ of_limit k }
{
    k == 6 || k == 7
}

// Whether byte k is the same in both, or of the limit.
fn same_at(first: &[u8], second: &[u8], k: usize) -> bool
    requires { (k < length first.now) × (k < length second.now) }
    ensures { result ≡ agree_at first.now second.now k }
{
    of_limit(k) || first[k] == second[k]
}

// Whether two sheets agree in every byte but those of the limit.
fn agree(first: &[u8], second: &[u8]) -> bool
    ensures { result ≡ agree first.now second.now }
{
    first.len() == second.len() && (0..first.len()).all(|k| same_at(first, second, k))
}

#[tactic(auto, unfolding(crate::specs::Pairs::is_pair))]
fn is_pair(first: &[u8], second: &[u8]) -> bool
    ensures { result ≡ is_pair first.now second.now }
{
    agree(first, second) && sheet::limit(first) < sheet::limit(second)
}

// Whether bit b is of the restricted mask of car i.
fn of_mask(c: Counts, b: u32, i: u32) -> bool
    requires { Small c × (i < c.cars) }
    ensures { result ≡ of_mask c b i }
{
    let from = c.car_start(i) + (car::RESTRICTED + c.across);
    from <= b && b < from + 64
}

// Of some car's.
fn of_masks(c: Counts, b: u32) -> bool
    requires { Small c }
    ensures { result ≡ of_masks c b }
{
    (0..c.cars).any(|i| of_mask(c, b, i))
}

// Whether bit b is the same in both, or a bar that is added.
fn added_at(c: Counts, first: &[u8], second: &[u8], b: u32) -> bool
    requires { Small c }
    ensures { result ≡ added_at c first.now second.now b }
{
    let x = bits::field(first, 0, b, 1);
    let y = bits::field(second, 0, b, 1);
    x == y || (x == 0 && of_masks(c, b))
}

fn added(c: Counts, first: &[u8], second: &[u8]) -> bool
    requires { Small c × (length first.now ≤ 27283) }
    ensures { result ≡ added c first.now second.now }
{
    (0..8 * first.len() as u32).all(|b| added_at(c, first, second, b))
}

// Whether the second sheet is the first with bars added.
fn is_barred(first: &[u8], second: &[u8]) -> bool
    ensures { result ≡ is_barred first.now second.now }
{
    if first.len() != second.len() {
        return false;
    }
    if agree(first, second) {
        return false;
    }
    match sheet::read(first) {
        Ok(c) => added(c, first, second),
        Err(_) => false,
    }
}

fn is_limited(s: &[u8]) -> bool
    ensures { result ≡ is_limited s.now }
{
    sheet::limit(s) != 65535
}

impl Change {
    // Of two sheets.
    fn of(first: &[u8], second: &[u8]) -> Self
        ensures { result ≡ change_of first.now second.now }
    {
        Change {
            raised: is_pair(first, second),
            barred: is_barred(first, second),
            limited: is_limited(first),
        }
    }

    // Whether the sheets are a pair.
    fn is_one(self) -> bool
        ensures { result ≡ is_one self }
    {
        self.raised || self.barred
    }
}

// Both passes, by the function whose promise the pair is to show. One `if`: a function passed in would have to promise all this again.
fn pass_both(
    barred: bool,
    first: &[u8],
    left: &mut Buffers,
    second: &[u8],
    left2: &mut Buffers,
) -> Answers
    ensures { let x = lent first.now left.old.decisions left.old.matrix left.old.sweeps in
        let y = done result.first left.new.decisions left.new.matrix left.new.sweeps in
        let x2 = lent second.now left2.old.decisions left2.old.matrix left2.old.sweeps in
        let y2 = done result.second left2.new.decisions left2.new.matrix left2.new.sweeps in
        (y ≡ pass_of x) × (y2 ≡ pass_of x2) }
{
    if barred {
        bars::pass_barred(
            first,
            &mut left.decisions,
            &mut left.matrix,
            &mut left.sweeps,
            second,
            &mut left2.decisions,
            &mut left2.matrix,
            &mut left2.sweeps,
        )
    } else {
        bench::pass_two(
            first,
            &mut left.decisions,
            &mut left.matrix,
            &mut left.sweeps,
            second,
            &mut left2.decisions,
            &mut left2.matrix,
            &mut left2.sweeps,
        )
    }
}

fn total(a: Result<Passed, Refusal>) -> u64
    ensures { result ≡ total_of a }
{
    match a {
        Ok(passed) => passed.total,
        Err(_) => 0,
    }
}

// The passes on the sheets of the cases at byte at and at its end.
fn run_pair(s: &[u8], at: usize, p: Stored, q: Stored, barred: bool) -> Compared
    requires { (at + 2 ≤ p.end) × Inside s.now p × (p.next + 2 ≤ q.end) × Inside s.now q }
    ensures first { result.first.differ ≡ differs_at s.now at p }
    ensures second { result.second.differ ≡ differs_at s.now p.next q }
    ensures lower { result.lower ≡ lower_at s.now at p q }
{
    let mut left = Buffers::ones();
    let mut left2 = Buffers::ones();
    let both = pass_both(
        barred,
        p.sheet(s, at),
        &mut left,
        q.sheet(s, p.next),
        &mut left2,
    );
    Compared {
        first: stored_passes::answered(
            s,
            p,
            both.first,
            &left.decisions,
            &left.matrix,
            &left.sweeps,
        ),
        second: stored_passes::answered(
            s,
            q,
            both.second,
            &left2.decisions,
            &left2.matrix,
            &left2.sweeps,
        ),
        lower: total(both.second) < total(both.first),
    }
}

// Sheets that are no pair.
fn report_sheets(rt: &impl Print, k: u64, at: usize, pair: bool) -> io::Result<()> {
    if pair {
        return Ok(());
    }
    println!(rt; "pair {k} at byte {at}: not one sheet with its limit raised, nor with bars added")
}

impl Totals {
    // One pair more, with so many cells and entries that differ.
    fn tally(self, change: Change, lower: bool, cells: u64, differ: u64) -> Self
        requires { Room self cells differ }
        ensures { result ≡ tallied self change lower cells differ }
    {
        Totals {
            pairs: self.pairs + 1,
            raised: self.raised + u64::from(change.raised),
            lower: self.lower + u64::from(change.raised && lower),
            barred: self.barred + u64::from(change.barred),
            limited: self.limited + u64::from(change.barred && change.limited),
            fallen: self.fallen + u64::from(change.barred && lower),
            cells: self.cells + cells,
            differ: self.differ + u64::from(!change.is_one()) + differ,
        }
    }

    // The pair of the cases at byte at and at its end, compared.
    fn compare(self, rt: &impl Print, s: &[u8], at: usize, p: Stored, q: Stored) -> Step<Self>
        requires { (at + 2 ≤ p.end) × Inside s.now p × (p.next + 2 ≤ q.end) × Inside s.now q × Counted at self }
        ensures { Turned s.now at (compared_at s.now at p q self) result }
    {
        let first = p.sheet(s, at);
        let second = q.sheet(s, p.next);
        let change = Change::of(first, second);
        let _ = report_sheets(rt, self.pairs, at, change.is_one());
        let x = run_pair(s, at, p, q, change.barred);
        let _ = stored_passes::report(rt, b"first of pair ", self.pairs, at, x.first);
        let _ = stored_passes::report(rt, b"second of pair ", self.pairs, p.next, x.second);
        let cells = p.size + q.size;
        let differ = x.first.differ + x.second.differ;
        Step {
            next: q.next,
            totals: self.tally(change, x.lower, cells as u64, differ),
        }
    }

    // A pair that is cut short ends the run, and counts as a difference.
    fn cut(self, rt: &impl Print, s: &[u8], at: usize) -> Step<Self>
        requires { (at < length s.now) × Counted at self }
        ensures { Turned s.now at (cut_at s.now self) result }
    {
        let totals = Totals {
            differ: self.differ + 1,
            ..self
        };
        lists::cut(rt, "pair", s, at, totals)
    }

    // The pair at byte at, whose first case is whole.
    fn second(self, rt: &impl Print, s: &[u8], at: usize, p: Stored) -> Step<Self>
        requires { (at < length s.now) × (at + 2 ≤ p.end) × Inside s.now p × Counted at self }
        ensures { Turned s.now at (second_by (case_of s.now p.next) s.now at p self) result }
    {
        match stored_passes::case_at(s, p.next) {
            Some(q) => self.compare(rt, s, at, p, q),
            None => self.cut(rt, s, at),
        }
    }
}

impl Replay for Totals {
    ghost turn_of = { turn_of };

    ghost can_turn = { λ s at t. Counted at t };

    fn turn(self, rt: &impl Print, s: &[u8], at: usize) -> Step<Self> {
        match stored_passes::case_at(s, at) {
            Some(p) => self.second(rt, s, at, p),
            None => self.cut(rt, s, at),
        }
    }
}

fn run(rt: &impl Print, s: &[u8]) -> Totals
    ensures { Replayed s.now result }
{
    lists::replay_all(rt, s, Totals::default())
}

fn main(rt: HostRuntime) -> io::Result<()> {
    let mut buffer = [0u8; LIMIT];
    let list = lists::read_list(&mut rt.reader(), &mut buffer)?;
    let Totals {
        pairs,
        raised,
        lower,
        barred,
        limited,
        fallen,
        cells,
        differ,
    } = run(&rt, list);
    print!(rt;
        "{pairs} pairs compared: {raised} with the limit raised, {lower} of them with a lower total; "
    )?;
    print!(rt;
        "{barred} with bars added, {limited} of them under a limit, {fallen} of them with a lower total; "
    )?;
    println!(rt; "{cells} cells, {differ} differences")
}
