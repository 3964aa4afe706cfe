// Asks stored stores of weights for a day and holds each answer to the stored one: the refusal's number and offset, or the six weights, bit by bit,
// as a policy record of a strategy takes them. Prints each that differs, and how many were compared.
//
// The list was made by tools/vectors/stores.rs, a look-up in Rust that was written from request F-1 alone. It has every refusal, the ends of all
// ranges, ties of starts and issues, repetitions with equal values, unlike ones and both zeros, every cut of a small store, stores of 255, 256 and
// 257 records, full ones in several orders, days 0 and 4,294,967,295, and 300 random stores. By number there are
//     answered    2    7    8   11   17   18
//          245   54    8   20   34  106  147
// A case is the store's length in 16 bits, its bytes, the day in 32, the strategy's code in 8, the number in 8 and the offset in 32, both 0 where
// the store answers, and the six weights' bits, 0 where it does not; the most significant byte comes first.
//
// A weight that differs shows. With the last bit of the list changed the program prints the case at byte 241155, with what it got and expected, and
//     614 stores compared, 245 answered, 1 differ
//
// Where the list cannot be read or the last line cannot be written, `main` ends with that error; a line before that is passed over where it cannot be
// written.
#![tactic(auto)]

ghost use Rattle.std.specs.Prelude.{◌≡◌, ◌+◌, ◌≤◌, length};
ghost use Rattle.replay_stores.specs.Cases.{found_of, answer_of, stored_at, got_at, compared_at, case_of, Replayed};

use components::Strategy;
use layout::Refusal;
use lists::{Case, Cases, Tally, Verdict};
use std::{fmt, io};
use weights::answer::SixWeights;

// An answer as the list stores it: a refusal or none, and the bits of the six weights, 0 where there is a refusal. A stored one may have any bits
// beside a refusal.
#[derive(Clone, Copy, PartialEq, Eq)]
struct Answer {
    verdict: Verdict,
    weights: [u64; 6],
}

impl fmt::Display for Answer {
    fn fmt<W: fmt::Write>(&self, f: &mut fmt::Formatter<W>) -> fmt::Result {
        let verdict = self.verdict;
        write!(f, "{verdict}")?;
        for bits in self.weights {
            write!(f, " {bits:016x}")?;
        }
        Ok(())
    }
}

// The list of stored stores; those that answer are counted apart.
#[derive(Clone, Copy)]
struct Stores;

impl Cases for Stores {
    ghost case_of = { case_of };

    fn case_at(self, rt: &impl Print, s: &[u8], at: usize) -> Option<Case> {
        let n = lists::part_length(s, at, 60)?;
        Some(compare(rt, s, at, n))
    }
}

fn found(six: SixWeights) -> Answer
    ensures { result ≡ found_of six }
{
    let weights = [six.w0, six.w1, six.w2, six.w3, six.w4, six.w5];
    Answer {
        verdict: Verdict::default(),
        weights: weights.map(double_bits::bits_of),
    }
}

fn answer_of(weights: Result<SixWeights, Refusal>, strategy: Strategy) -> Answer
    ensures { result ≡ answer_of strategy weights }
{
    match weights {
        Ok(six) => found(six.for_strategy(strategy)),
        Err(refusal) => Answer {
            verdict: Verdict::from(refusal),
            weights: [0; 6],
        },
    }
}

// The stored answer from byte at on.
fn stored_at(s: &[u8], at: usize) -> Answer
    requires { at + 53 ≤ length s.now }
    ensures { result ≡ stored_at s.now at }
{
    let weights = [
        lists::number(s, at + 5, 8),
        lists::number(s, at + 13, 8),
        lists::number(s, at + 21, 8),
        lists::number(s, at + 29, 8),
        lists::number(s, at + 37, 8),
        lists::number(s, at + 45, 8),
    ];
    Answer {
        verdict: lists::verdict_at(s, at),
        weights,
    }
}

// The answer of the store in the n bytes from byte at on, for the day and the strategy after them.
fn got_at(s: &[u8], at: usize, n: usize) -> Answer
    requires { at + n + 5 ≤ length s.now }
    ensures { result ≡ got_at s.now at n }
{
    let end = at + n;
    let day = lists::number(s, end, 4) as u32;
    let strategy = Strategy::of_code(lists::number(s, end + 4, 1));
    answer_of(weights::weights(&s[at..end], day), strategy)
}

// The case at byte at, with a store of n bytes, compared.
fn compare(rt: &impl Print, s: &[u8], at: usize, n: usize) -> Case
    requires { at + 60 + n ≤ length s.now }
    ensures { result ≡ compared_at s.now at n }
{
    let got = got_at(s, at + 2, n);
    let expected = stored_at(s, at + 2 + n + 5);
    Case {
        next: at + 60 + n,
        marked: got.verdict.number == 0,
        differs: lists::differs(rt, at, &got, &expected),
    }
}

fn run(rt: &impl Print, s: &[u8]) -> Tally<Stores>
    ensures { Replayed s.now result }
{
    lists::compare_all(rt, s, Stores)
}

fn main(rt: HostRuntime) -> io::Result<()> {
    let mut buffer = [0u8; 262144];
    let list = lists::read_list(&mut rt.reader(), &mut buffer)?;
    let t = run(&rt, list);
    println!(rt;
        "{} stores compared, {} answered, {} differ",
        t.compared, t.marked, t.differ
    )
}
