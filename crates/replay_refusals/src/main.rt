// Reads stored sheets and holds each answer to the stored one: the refusal's number and offset, or acceptance. Prints each that differs, and how
// many were compared.
//
// The list was made by `oracle list refusals 1 crates/replay_refusals/stdin` (tools/oracle), from a reader in Rust that was written from document
// 01 alone (tools/sheetgen). For each way of spoiling a sheet and each kind that it spoils it has the smallest two of 400, the smallest damaged
// and random ones of each number and kind, each table full and with one record too many, every cut of a small sheet, counts too low and too
// high, each bit of the tail, limits at their ends, and each bit of a policy before its weights flipped. A case is the sheet's length in 16 bits,
// its bytes, the number in 8 bits and the offset in 32, both 0 where the sheet is accepted; the most significant byte comes first.
//
// Where the list cannot be read or the last line cannot be written, `main` ends with that error; a line before that is passed over where it cannot be
// written.
#![tactic(auto)]

ghost use Rattle.std.specs.Prelude.{◌≡◌, ◌+◌, ◌≤◌, length};
ghost use Rattle.replay_refusals.specs.Cases.{answer_of, compared_at, case_of, Replayed};

use layout::{Counts, Refusal};
use lists::{Case, Cases, Tally, Verdict};
use std::io;

// The list of stored sheets; those that are accepted are counted apart.
#[derive(Clone, Copy)]
struct Sheets;

impl Cases for Sheets {
    ghost case_of = { case_of };

    fn case_at(self, rt: &impl Print, s: &[u8], at: usize) -> Option<Case> {
        let n = lists::part_length(s, at, 7)?;
        Some(compare(rt, s, at, n))
    }
}

fn answer_of(r: Result<Counts, Refusal>) -> Verdict
    ensures { result ≡ answer_of r }
{
    match r {
        Err(refusal) => Verdict::from(refusal),
        Ok(_) => Verdict::default(),
    }
}

// The case at byte at, with a sheet of n bytes, compared.
fn compare(rt: &impl Print, s: &[u8], at: usize, n: usize) -> Case
    requires { at + 7 + n ≤ length s.now }
    ensures { result ≡ compared_at s.now at n }
{
    let start = at + 2;
    let end = start + n;
    let got = answer_of(sheet::read(&s[start..end]));
    let expected = lists::verdict_at(s, end);
    Case {
        next: at + 7 + n,
        marked: got.number == 0,
        differs: lists::differs(rt, at, &got, &expected),
    }
}

fn run(rt: &impl Print, s: &[u8]) -> Tally<Sheets>
    ensures { Replayed s.now result }
{
    lists::compare_all(rt, s, Sheets)
}

fn main(rt: HostRuntime) -> io::Result<()> {
    let mut buffer = [0u8; 204800];
    let list = lists::read_list(&mut rt.reader(), &mut buffer)?;
    let t = run(&rt, list);
    println!(rt;
        "{} sheets compared, {} accepted, {} differ",
        t.compared, t.marked, t.differ
    )
}
