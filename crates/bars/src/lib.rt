// Bars added to a sheet: request F-14.
#![tactic(auto)]

ghost use Rattle.std.specs.Prelude.{◌≡◌};
ghost use Rattle.bench.specs.Done.{lent, done, pass_of};
ghost use Rattle.bars.specs.NeverCheaper.{NeverCheaper};

use bench::Answers;

// The two passes of `bench::pass_two`, with one more promise: without a candidate limit the second total is no lower, where the sheets agree but in
// bars and the second has those of the first.
pub fn pass_barred<'a>(
    first: &'a [u8],
    decisions: &mut [u32],
    matrix: &mut [u64],
    sweeps: &mut [u8],
    second: &'a [u8],
    decisions2: &mut [u32],
    matrix2: &mut [u64],
    sweeps2: &mut [u8],
) -> Answers
    ensures { let x = lent first.now decisions.old matrix.old sweeps.old in
        let y = done result.first decisions.new matrix.new sweeps.new in
        let x2 = lent second.now decisions2.old matrix2.old sweeps2.old in
        let y2 = done result.second decisions2.new matrix2.new sweeps2.new in
        (y ≡ pass_of x) × (y2 ≡ pass_of x2) × NeverCheaper x x2 y y2 }
{
    bench::pass_two(
        first, decisions, matrix, sweeps, second, decisions2, matrix2, sweeps2,
    )
}
