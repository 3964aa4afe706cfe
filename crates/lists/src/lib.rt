// What the programs that replay stored lists share: reading a list, the run over its cases, and a number among its bytes.
#![tactic(auto)]

ghost use Rattle.std.specs.Prelude.{◌≡◌, ℕ, List, ◌+◌, ◌≤◌, ◌<◌, ◌^◌, ◌*◌, length, take, not, Option, IfSome, IfOk, OnErr};
ghost use Rattle.laws.specs.Tables.{tab};
ghost use Rattle.std.specs.Io.{ReadsAtMost};
ghost use Rattle.std.specs.Io.KnownBytes.{Consumes, IsAtEnd};
ghost use Rattle.lists.specs.Lists.{number, number_in, part_length, verdict_at};
ghost use Rattle.lists.specs.Turns.{Turned, Replayed};
ghost use Rattle.lists.specs.Compared.{turn_by, no_case, AllCompared, Counted, IsWithin};
ghost use Rattle.lists.specs.declared.Case.{Case};
ghost use Rattle.lists.specs.declared.Step.{Step};

use layout::Refusal;
use std::fmt::Display;
use std::io::Read;
use std::{fmt, io};

// n bytes from byte at, most significant first.
pub fn number(s: &[u8], at: usize, n: usize) -> u64
    requires { (n ≤ 8) × (at + n ≤ length s.now) }
    ensures { (result ≡ number s.now at n) × (result < 2 ^ (8 * n)) }
{
    let mut r: u64 = 0;
    for i in 0..n {
        r = r * 256 + u64::from(s[at + i]);
    }
    r
}

// What `read` makes of the numbers from byte at on, width bytes each: as many as the buffer has places.
pub fn fill<T: Copy, F: Fn(u64) -> T>(s: &[u8], at: usize, width: usize, read: F, out: &mut [T])
    requires stored { (width ≤ 8) × (at + width * length out.old ≤ length s.now) }
    requires can { (x : ℕ) → x < 2 ^ (8 * width) → F.pre read x }
    ensures { (f : ℕ → T) → ((k : ℕ) (x : T) → k < length out.old → F.post read (number_in s.now at width k) x → x ≡ f k)
        → out.new ≡ tab f (length out.old) }
{
    for k in 0..out.len() {
        out[k] = read(number(s, at + width * k, width));
    }
}

// A refusal as lists store it: its number, a byte, and its offset, four bytes. Both are 0 where nothing is refused, as by default. Not an Option: a
// list may store an offset beside number 0, which differs from every answer and is printed with both.
#[derive(Clone, Copy, Default, PartialEq, Eq)]
pub struct Verdict {
    pub number: u64,
    pub offset: u64,
}

impl From<Refusal> for Verdict {
    ghost from_gives = { λ refusal x. x ≡ record { number = refusal.number; offset = refusal.offset } };

    fn from(refusal: Refusal) -> Self {
        Verdict {
            number: u64::from(refusal.number),
            offset: refusal.offset,
        }
    }
}

impl fmt::Display for Verdict {
    fn fmt<W: fmt::Write>(&self, f: &mut fmt::Formatter<W>) -> fmt::Result {
        let number = self.number;
        let offset = self.offset;
        write!(f, "{number} at {offset}")
    }
}

// How many bytes the part has that a case at byte at begins with: its first two bytes say so. None where the part and the other bytes of the case, of
// which there are `others`, are not all there.
pub fn part_length(s: &[u8], at: usize, others: usize) -> Option<usize>
    requires { (at ≤ length s.now) × (2 ≤ others) }
    ensures is { result ≡ part_length s.now at others }
    ensures within { IfSome result (λ n. at + others + n ≤ length s.now) }
{
    let left = s.len() - at;
    if left < others {
        return None;
    }
    let n = number(s, at, 2) as usize;
    if left - others < n { None } else { Some(n) }
}

// The verdict that is stored from byte at on.
pub fn verdict_at(s: &[u8], at: usize) -> Verdict
    requires { at + 5 ≤ length s.now }
    ensures { result ≡ verdict_at s.now at }
{
    Verdict {
        number: number(s, at, 1),
        offset: number(s, at + 1, 4),
    }
}

// Reads until the buffer is full or the input ends, and answers how many bytes it put at the buffer's start. An error ends it: what was read before
// stands at the buffer's start.
pub fn read_full<R: Read>(input: &mut R, buffer: &mut [u8]) -> io::Result<usize>
    ensures within { ReadsAtMost result buffer.new }
    ensures bytes { IfOk result (λ n. Consumes (R.remaining input.old) (R.remaining input.new) (take n buffer.new)) }
    ensures whole { IfOk result (λ n. n < length buffer.new → IsAtEnd (R.remaining input.new)) }
    ensures err { OnErr result ((n : ℕ) × Consumes (R.remaining input.old) (R.remaining input.new) (take n buffer.new)) }
{
    let mut done: usize = 0;
    // A read gives any number of bytes, so no range counts them.
    while done < buffer.len() {
        let n = input.read(&mut buffer[done..])?;
        if n == 0 {
            return Ok(done);
        }
        done += n;
    }
    Ok(done)
}

// The first bytes of the input, as many as the buffer has places, or all of it where there are fewer. They stand at the buffer's start.
pub fn read_list<'a, R: Read>(input: &mut R, buffer: &'a mut [u8]) -> io::Result<&'a [u8]>
    ensures within { IfOk result (λ list. length list.now ≤ length buffer.old) }
    ensures bytes { IfOk result (λ list. Consumes (R.remaining input.old) (R.remaining input.new) list.now) }
    ensures whole { IfOk result (λ list. length list.now < length buffer.old → IsAtEnd (R.remaining input.new)) }
    ensures err { OnErr result ((read : List ℕ) × Consumes (R.remaining input.old) (R.remaining input.new) read) }
{
    let n = read_full(input, buffer)?;
    Ok(&buffer[..n])
}

// Where the next case of a list starts, and the totals so far.
#[derive(Clone, Copy)]
pub struct Step<T> {
    pub next: usize,
    pub totals: T,
}

// The totals of a list, to which each of its cases adds.
pub trait Replay: Copy {
    // What the case at a byte leaves.
    ghost turn_of: { List ℕ → ℕ → Self → Step Self };

    // What each case keeps, so that no count overflows: where a case starts, these totals are reached.
    ghost can_turn: { List ℕ → ℕ → Self → Type 0 };

    // Adds the case at byte at.
    fn turn(self, rt: &impl Print, s: &[u8], at: usize) -> Step<Self>
        requires { (at < length s.now) × can_turn s.now at self }
        ensures { Turned (turn_of s.now) (can_turn s.now) (length s.now) at self result };
}

// The totals after each case of the list, from those at its start.
pub fn replay_all<T: Replay>(rt: &impl Print, s: &[u8], start: T) -> T
    requires { T.can_turn s.now 0 start }
    ensures { Replayed (T.turn_of s.now) (length s.now) start result }
{
    let mut totals = start;
    let mut at: usize = 0;
    // A case says where the next one starts, so no range counts them.
    while at < s.len() {
        let step = totals.turn(rt, s, at);
        totals = step.totals;
        at = step.next;
    }
    totals
}

// What starts at byte at, a case or what a list has in its place, is cut short: the run ends there, with these totals.
pub fn cut<T>(rt: &impl Print, name: &str, s: &[u8], at: usize, totals: T) -> Step<T>
    ensures { result ≡ record { next = length s.now; totals = totals } }
{
    let _ = println!(rt; "no whole {name} at byte {at}");
    Step {
        next: s.len(),
        totals,
    }
}

// Whether an answer differs from the stored one of the case at byte at; where it does, both are printed.
pub fn differs<A: PartialEq + Display>(rt: &impl Print, at: usize, got: &A, expected: &A) -> bool
    ensures { result ≡ not (A.eq got.now expected.now) }
{
    if got == expected {
        return false;
    }
    let _ = println!(rt; "the case at byte {at}: got {got}, expected {expected}");
    true
}

// Whether the case at byte at differs; where it does, that is printed.
pub fn noted(rt: &impl Print, at: usize, differs: bool) -> bool
    ensures { result ≡ differs }
{
    if differs {
        let _ = println!(rt; "differs: the case at byte {at}");
    }
    differs
}

// A case that was compared: where the next one starts, whether it is one of those that are counted apart, and whether it differs.
#[derive(Clone, Copy)]
pub struct Case {
    pub next: usize,
    pub marked: bool,
    pub differs: bool,
}

// A kind of list whose cases are compared one by one.
pub trait Cases: Copy {
    ghost case_of: { List ℕ → ℕ → Option Case };

    // The case at byte at, compared; a difference is printed. None where no whole case stands there.
    fn case_at(self, rt: &impl Print, s: &[u8], at: usize) -> Option<Case>
        requires { at < length s.now }
        ensures is { result ≡ case_of s.now at }
        ensures within { IfSome result (IsWithin at (length s.now)) };
}

// How many cases were compared, how many of them are counted apart, and how many differ. One that is cut short differs.
#[derive(Clone, Copy)]
pub struct Tally<C> {
    pub cases: C,
    pub compared: u64,
    pub marked: u64,
    pub differ: u64,
}

impl<C> Tally<C> {
    pub fn new(cases: C) -> Tally<C>
        ensures { result ≡ no_case cases }
    {
        Tally {
            cases,
            compared: 0,
            marked: 0,
            differ: 0,
        }
    }
}

impl<C: Cases> Replay for Tally<C> {
    ghost turn_of = { λ s at t. turn_by (C.case_of s at) (length s) t };

    ghost can_turn = { λ s at t. Counted at t };

    fn turn(self, rt: &impl Print, s: &[u8], at: usize) -> Step<Self> {
        match self.cases.case_at(rt, s, at) {
            None => cut(
                rt,
                "case",
                s,
                at,
                Tally {
                    differ: self.differ + 1,
                    ..self
                },
            ),
            Some(case) => Step {
                next: case.next,
                totals: Tally {
                    compared: self.compared + 1,
                    marked: self.marked + u64::from(case.marked),
                    differ: self.differ + u64::from(case.differs),
                    ..self
                },
            },
        }
    }
}

// The totals over all cases of a list.
pub fn compare_all<C: Cases>(rt: &impl Print, s: &[u8], cases: C) -> Tally<C>
    ensures { AllCompared (C.case_of s.now) (length s.now) cases result }
{
    replay_all(rt, s, Tally::new(cases))
}

#[cfg(test)]
mod tests {
    use super::*;
    use std::test::Fail;

    #[test]
    fn a_list_ends_at_its_limit(rt: HostRuntime) -> Result<(), Fail> {
        let mut input = b"abcde".as_slice();
        let mut buffer = [0u8; 3];
        let first = read_list(&mut input, &mut buffer)?;
        assert_eq!(rt; first, b"abc".as_slice());
        let rest = read_list(&mut input, &mut buffer)?;
        assert_eq!(rt; rest, b"de".as_slice());
        let none = read_list(&mut input, &mut buffer)?;
        assert_eq!(rt; none.len(), 0);
        Ok(())
    }
}
