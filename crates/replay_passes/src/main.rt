// Runs the pass on stored sheets and holds all that it answers and writes to what is stored: idle cars, pending stops, total, held cells, decisions,
// cells and sweeps. Prints the first difference of each sheet that has one, and how much was compared.
//
// The list was made by `oracle list passes 1 FILE` (tools/oracle) from the published Rust files: for each of the harness's faulty passes a small
// sheet that tells it from the right one, seven sheets of each profile, and document 01's example. Where the Rust builds no matrix (no idle car, or no
// pending stop), cells and total are document 01's. A case's format is in the crate stored_passes.
//
// Sheets are counted from 0. It was tried that it can fail: a bit flipped in a stored number of stops, total, number of held cells, decision, cell
// or sweep, or in a sheet's edition, is printed with both values, and so is a list without its last byte.
//
// Where the list cannot be read or the last line cannot be written, `main` ends with that error; a line before that is passed over where it cannot be
// written.
#![tactic(auto)]

ghost use Rattle.std.specs.Prelude.{◌≡◌, ◌+◌, ◌≤◌};
ghost use Rattle.stored_passes.specs.Cases.{Inside};
ghost use Rattle.stored_passes.specs.Passes.{differs_at};
ghost use Rattle.replay_passes.specs.Replay.{compared_at, turn_of, Counted, Replayed};

use lists::{Replay, Step};
use std::io;
use stored_passes::{Buffers, Stored, Tally};

// The list's bytes that are read.
const LIMIT: usize = 131072;

#[derive(Clone, Copy, Default)]
struct Totals {
    sheets: u64,
    built: u64,
    cells: u64,
    differ: u64,
}

// The pass on the sheet of the case at byte at.
fn run_case(s: &[u8], at: usize, p: Stored) -> Tally
    requires { (at + 2 ≤ p.end) × Inside s.now p }
    ensures { result.differ ≡ differs_at s.now at p }
{
    let mut left = Buffers::ones();
    let sheet = p.sheet(s, at);
    let answer = bench::pass(
        sheet,
        &mut left.decisions,
        &mut left.matrix,
        &mut left.sweeps,
    );
    stored_passes::answered(s, p, answer, &left.decisions, &left.matrix, &left.sweeps)
}

impl Totals {
    // The case at byte at, compared.
    fn compare(self, rt: &impl Print, s: &[u8], at: usize, p: Stored) -> Step<Self>
        requires { (at + 2 ≤ p.end) × Inside s.now p × Counted at self }
        ensures { (result ≡ compared_at s.now at p self) × Counted result.next result.totals }
    {
        let d = run_case(s, at, p);
        let _ = stored_passes::report(rt, b"sheet ", self.sheets, at, d);
        let built = s[p.next - 1] == 1;
        Step {
            next: p.next,
            totals: Totals {
                sheets: self.sheets + 1,
                built: self.built + u64::from(built),
                cells: self.cells + p.size as u64,
                differ: self.differ + d.differ,
            },
        }
    }
}

impl Replay for Totals {
    ghost turn_of = { turn_of };

    ghost can_turn = { λ s at t. Counted at t };

    // A case that is cut short ends the run, and counts as a difference.
    fn turn(self, rt: &impl Print, s: &[u8], at: usize) -> Step<Self> {
        match stored_passes::case_at(s, at) {
            Some(p) => self.compare(rt, s, at, p),
            None => lists::cut(
                rt,
                "case",
                s,
                at,
                Totals {
                    differ: self.differ + 1,
                    ..self
                },
            ),
        }
    }
}

fn run(rt: &impl Print, s: &[u8]) -> Totals
    ensures { Replayed s.now result }
{
    lists::replay_all(rt, s, Totals::default())
}

fn main(rt: HostRuntime) -> io::Result<()> {
    let mut buffer = [0u8; LIMIT];
    let list = lists::read_list(&mut rt.reader(), &mut buffer)?;
    let Totals {
        sheets,
        built,
        cells,
        differ,
    } = run(&rt, list);
    println!(rt;
        "{sheets} sheets compared, {built} with a matrix of the Rust's; {cells} cells, {differ} differences"
    )
}
