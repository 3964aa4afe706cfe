// The sweeps of all cars after the pass, as the sheet codes them.
#![tactic(auto)]

ghost use Rattle.std.specs.Prelude.{◌≡◌, ◌++◌, ℕ, ◌≤◌, length, drop};
ghost use Rattle.laws.specs.Tables.{tab};
ghost use Rattle.layout.specs.Offsets.{Small};
ghost use Rattle.layout.specs.Records.{from, car_of, sheet_of};
ghost use Rattle.ranking.specs.Ranking.{sweep_by};
ghost use Rattle.sweep.specs.Sweeps.{sweep_of};
ghost use Rattle.sweeps.specs.Swept.{Positioned, code_after};

use components::{Direction, Mode, Strategy};
use layout::{Counts, car};
use pending::StopMasks;
use sweep::Sweep;

// The sweep that the sheet gives the car whose record starts at a bit; its fields stand before a second coordinate of any bits.
fn sweep_at(s: &[u8], at: u32) -> Sweep
    ensures { (w : ℕ) → result ≡ sweep_of (car_of w (from s.now at)) }
{
    Sweep {
        direction: Direction::from(bits::flag(s, at, car::SWEEP)),
        mode: Mode::from(bits::flag(s, at, car::MODE)),
    }
}

// The same after the pass.
fn swept_at<'a>(
    s: &'a [u8],
    at: u32,
    strategy: Strategy,
    masks: StopMasks,
    xs: &'a [f64],
    n: usize,
) -> Sweep
    requires { (n ≤ 64) × (n ≤ length xs.now) }
    ensures { (w : ℕ) → result ≡ sweep_by strategy (car_of w (from s.now at)) masks.pending masks.demand xs.now n }
{
    let sweep = sweep_at(s, at);
    let listed = bits::flag(s, at, car::LISTED);
    let along = records::double_at(s, at, car::POSITION);
    ranking::sweep_after(
        strategy,
        sweep,
        listed,
        along,
        masks.pending,
        masks.demand,
        xs,
        n,
    )
}

// 2 × sweep + mode of each car record, first in out.
pub fn fill_sweeps<'a>(s: &'a [u8], c: Counts, masks: StopMasks, xs: &'a [f64], out: &mut [u8])
    requires small { Small c × (length xs.now ≡ 128) × (32 ≤ length out.old) }
    requires positioned { Positioned (sheet_of s.now c) xs.now masks }
    ensures { let of = sheet_of s.now c in
        (length out.new ≡ length out.old)
        × (out.new ≡ tab (code_after of) of.cars ++ drop of.cars out.old) }
{
    let policy = sheet::policy_at(s);
    let strategy = policy.strategy;
    let n = c.cars;
    for i in 0..n {
        let at = c.car_start(i);
        let sweep = swept_at(s, at, strategy, masks, xs, c.stops as usize);
        out[i as usize] = sweep.code();
    }
}
