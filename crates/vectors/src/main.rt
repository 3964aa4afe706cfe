// Runs scale_cost and field on vectors that Rust evaluated (tools/vectors), and prints how many it compared and each that differs.
//
// Where the vectors cannot be read or a line of the report cannot be written, `main` ends with that error; a line before those is passed over where it
// cannot be written.
#![tactic(auto)]

ghost use Rattle.std.specs.Prelude.{◌≡◌, ◌+◌, ◌^◌, ◌≤◌, ◌<◌, length, Some};
ghost use Rattle.vectors.specs.declared.Vector.TheVariants.{Scale, Field};
ghost use Rattle.vectors.specs.Vectors.{Whole, Counted, one_more, field_vector, vector_at, scale_case, field_case, differ, step_by, turn_of, Replayed};

use lists::{Replay, Step};
use std::{fmt, io};

// What the proved function answers, and what Rust gave.
#[derive(Clone, Copy)]
struct Case {
    got: u64,
    expected: u64,
}

#[derive(Clone, Copy)]
enum Vector {
    // A cost and its cell, 17 bytes.
    Scale,
    // A field of width bits in count bytes, 19 bytes and those.
    Field { width: usize, count: usize },
}

// How many vectors were compared, and how many of them differ.
#[derive(Clone, Copy, Default)]
struct Count {
    compared: u64,
    differ: u64,
}

impl fmt::Display for Count {
    fn fmt<W: fmt::Write>(&self, f: &mut fmt::Formatter<W>) -> fmt::Result {
        let compared = self.compared;
        let differ = self.differ;
        write!(f, "{compared} compared, {differ} differ")
    }
}

impl Count {
    fn one_more(self, differs: bool) -> Count
        requires { (self.compared + 1 < 2 ^ 64) × (self.differ + 1 < 2 ^ 64) }
        ensures { result ≡ one_more self differs }
    {
        Count {
            compared: self.compared + 1,
            differ: self.differ + u64::from(differs),
        }
    }
}

#[derive(Clone, Copy, Default)]
struct Totals {
    scale: Count,
    field: Count,
}

impl Replay for Totals {
    ghost turn_of = { turn_of };

    ghost can_turn = { λ s at t. Counted at t };

    // One that is cut short or has another tag ends the run.
    fn turn(self, rt: &impl Print, s: &[u8], at: usize) -> Step<Self> {
        match vector_at(s, at) {
            Some(Vector::Scale) => compare_scale(rt, s, at, self),
            Some(Vector::Field { width, count }) => compare_field(rt, s, at, width, count, self),
            None => {
                let _ = println!(rt; "no vector at byte {at}");
                Step {
                    next: s.len(),
                    totals: self,
                }
            }
        }
    }
}

// The field at byte at, where all of it is there.
fn field_vector(s: &[u8], at: usize) -> Option<Vector>
    requires { at < length s.now }
    ensures { (result ≡ field_vector s.now at) × Whole s.now at result }
{
    let left = s.len() - at;
    if left < 19 {
        return None;
    }
    let width = usize::from(s[at + 9]);
    let count = usize::from(s[at + 10]);
    if 64 < width {
        return None;
    }
    if left - 19 < count {
        return None;
    }
    Some(Vector::Field { width, count })
}

// The vector that starts at byte at.
fn vector_at(s: &[u8], at: usize) -> Option<Vector>
    requires { at < length s.now }
    ensures { (result ≡ vector_at s.now at) × Whole s.now at result }
{
    let left = s.len() - at;
    let tag = s[at];
    if tag == 2 {
        return field_vector(s, at);
    }
    if tag != 1 {
        return None;
    }
    if left < 17 {
        return None;
    }
    Some(Vector::Scale)
}

fn scale_case(s: &[u8], at: usize) -> Case
    requires { at + 17 ≤ length s.now }
    ensures { result ≡ scale_case s.now at }
{
    let cost = fp::double(lists::number(s, at + 1, 8));
    let scaled = scale::scale_cost(cost);
    let expected = lists::number(s, at + 9, 8);
    Case {
        got: scaled.cell,
        expected,
    }
}

fn field_case(s: &[u8], at: usize, w: usize, n: usize) -> Case
    requires { (w ≤ 64) × (at + 19 + n ≤ length s.now) }
    ensures { result ≡ field_case s.now at w n }
{
    let from = lists::number(s, at + 1, 4) as u32;
    let off = lists::number(s, at + 5, 4) as u32;
    let start = at + 11;
    let end = start + n;
    let expected = lists::number(s, end, 8);
    let got = bits::field(&s[start..end], from, off, w);
    Case { got, expected }
}

// Whether the two differ; where they do, both are printed.
fn differs(rt: &impl Print, c: Case, at: usize) -> bool
    ensures { result ≡ differ c }
{
    let Case { got, expected } = c;
    if got == expected {
        return false;
    }
    let _ = println!(rt; "at byte {at} got {got} expected {expected}");
    true
}

// The cost at byte at, compared.
fn compare_scale(rt: &impl Print, s: &[u8], at: usize, t: Totals) -> Step<Totals>
    requires { (at + 17 ≤ length s.now) × Counted at t }
    ensures { result ≡ step_by (Some Scale) s.now at t }
{
    let differs = differs(rt, scale_case(s, at), at);
    Step {
        next: at + 17,
        totals: Totals {
            scale: t.scale.one_more(differs),
            ..t
        },
    }
}

// The field at byte at, of w bits in n bytes, compared.
fn compare_field(
    rt: &impl Print,
    s: &[u8],
    at: usize,
    w: usize,
    n: usize,
    t: Totals,
) -> Step<Totals>
    requires { (w ≤ 64) × (at + 19 + n ≤ length s.now) × Counted at t }
    ensures { result ≡ step_by (Some (Field w n)) s.now at t }
{
    let differs = differs(rt, field_case(s, at, w, n), at);
    Step {
        next: at + 19 + n,
        totals: Totals {
            field: t.field.one_more(differs),
            ..t
        },
    }
}

fn run(rt: &impl Print, s: &[u8]) -> Totals
    ensures { Replayed s.now result }
{
    lists::replay_all(rt, s, Totals::default())
}

fn main(rt: HostRuntime) -> io::Result<()> {
    let mut buffer = [0u8; 65536];
    let list = lists::read_list(&mut rt.reader(), &mut buffer)?;
    let t = run(&rt, list);
    println!(rt; "scale {}", t.scale)?;
    println!(rt; "field {}", t.field)
}
