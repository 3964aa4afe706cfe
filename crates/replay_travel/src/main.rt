// Gives stored runs to the travel time and holds each answer to the stored one: the seconds, bit by bit, or refusal 21. Prints each that differs, and how
// many were compared.
//
// The list was made by `oracle list travel 1 crates/replay_travel/stdin` (tools/oracle): the times are those that the published eta.rs gives. By path
// there are
//     refused   no run   braking   no cruise   cruise
//         172       54       136         231      235
// A case is distance, starting speed, top speed and the rates of acceleration and deceleration as 64 IEEE bits each, the number in 8 bits and the
// time's 64 bits, 0 where there is none; the most significant byte comes first. tools/oracle/README.md says what the runs have in them.
//
// A time that differs shows. With the last bit of the list changed the program prints the case at byte 40523, with what it got and expected, and
//     828 runs compared, 656 timed, 1 differ
//
// Where the list cannot be read or the last line cannot be written, `main` ends with that error; a line before that is passed over where it cannot be
// written.
#![tactic(auto)]

ghost use Rattle.std.specs.Prelude.{◌≡◌, ◌+◌, ◌≤◌, length};
ghost use Rattle.std.specs.Float.{binary64};
ghost use Rattle.std.specs.Float.Ieee.{of_bits};
ghost use Rattle.lists.specs.Lists.{number};
ghost use Rattle.replay_travel.specs.Cases.{answer_of, stored_at, got_at, compared_at, case_of, Replayed};

use lists::{Case, Cases, Tally};
use std::{fmt, io};

// An answer as the list stores it: 0 and the bits of the seconds, or a refusal's number and 0. A stored one may have any number beside any bits.
#[derive(Clone, Copy, PartialEq, Eq)]
struct Answer {
    number: u64,
    time: u64,
}

impl fmt::Display for Answer {
    fn fmt<W: fmt::Write>(&self, f: &mut fmt::Formatter<W>) -> fmt::Result {
        let number = self.number;
        let time = self.time;
        write!(f, "{number} time {time:016x}")
    }
}

// The list of stored runs; those that have a time are counted apart.
#[derive(Clone, Copy)]
struct Runs;

impl Cases for Runs {
    ghost case_of = { case_of };

    fn case_at(self, rt: &impl Print, s: &[u8], at: usize) -> Option<Case> {
        let left = s.len() - at;
        if left < 49 {
            return None;
        }
        Some(compare(rt, s, at))
    }
}

fn answer_of(answer: Option<f64>) -> Answer
    ensures { result ≡ answer_of answer }
{
    match answer {
        Some(x) => Answer {
            number: 0,
            time: double_bits::bits_of(x),
        },
        None => Answer {
            number: 21,
            time: 0,
        },
    }
}

// The double whose bits stand from byte at on.
fn double_at(s: &[u8], at: usize) -> f64
    requires { at + 8 ≤ length s.now }
    ensures { result ≡ of_bits binary64 (number s.now at 8) }
{
    fp::double(lists::number(s, at, 8))
}

// The answer to the run whose five doubles stand from byte at on.
fn got_at(s: &[u8], at: usize) -> Answer
    requires { at + 40 ≤ length s.now }
    ensures { result ≡ got_at s.now at }
{
    let distance = double_at(s, at);
    let start = double_at(s, at + 8);
    let top = double_at(s, at + 16);
    let accel = double_at(s, at + 24);
    let decel = double_at(s, at + 32);
    answer_of(travel::travel_time(distance, start, top, accel, decel))
}

// The stored answer from byte at on.
fn stored_at(s: &[u8], at: usize) -> Answer
    requires { at + 9 ≤ length s.now }
    ensures { result ≡ stored_at s.now at }
{
    Answer {
        number: lists::number(s, at, 1),
        time: lists::number(s, at + 1, 8),
    }
}

// The case at byte at, compared.
fn compare(rt: &impl Print, s: &[u8], at: usize) -> Case
    requires { at + 49 ≤ length s.now }
    ensures { result ≡ compared_at s.now at }
{
    let got = got_at(s, at);
    let expected = stored_at(s, at + 40);
    Case {
        next: at + 49,
        marked: got.number == 0,
        differs: lists::differs(rt, at, &got, &expected),
    }
}

fn run(rt: &impl Print, s: &[u8]) -> Tally<Runs>
    ensures { Replayed s.now result }
{
    lists::compare_all(rt, s, Runs)
}

fn main(rt: HostRuntime) -> io::Result<()> {
    let mut buffer = [0u8; 65536];
    let list = lists::read_list(&mut rt.reader(), &mut buffer)?;
    let t = run(&rt, list);
    println!(rt;
        "{} runs compared, {} timed, {} differ",
        t.compared, t.marked, t.differ
    )
}
