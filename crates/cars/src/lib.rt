// The idle cars of a sheet, decoded four at a time into an array that a pass lends.
#![tactic(auto)]

ghost use Rattle.std.specs.Prelude.{◌≡◌, cond, ℕ, ◌<◌, ◌≤◌, ◌%◌, min, eqb, get_or};
ghost use Rattle.layout.specs.Offsets.{Small};
ghost use Rattle.layout.specs.Records.{sheet_of};
ghost use Rattle.cars.specs.Cars.{blank, four_from};

use components::{Car, Direction, Mode, Phase, Point};
use layout::Counts;
use mask::Ones;

// What stands where there is no car.
pub fn blank() -> Car
    ensures { result ≡ blank }
{
    Car {
        id: 0,
        line: 0,
        phase: Phase::Idle,
        target: 0,
        listed: false,
        up: false,
        down: false,
        direction: Direction::Up,
        mode: Mode::Strict,
        position: Point {
            along: 0.0,
            across: 0.0,
        },
        speed: 0.0,
        capacity: 0.0,
        load: 0.0,
        bypassup: None,
        bypassdown: None,
        transition: 0,
        dwell: 0,
        restricted: 0,
        calls: 0,
    }
}

// The listed cars from one on, at most four, then blank ones.
fn four_from(s: &[u8], c: Counts, idle: &Ones, first: usize) -> [Car; 4]
    requires { Small c × (idle.now.count ≤ 64) × (first ≤ idle.now.count) × ((k : ℕ) → k < idle.now.count → get_or idle.now.at k 0 < c.cars) }
    ensures { result ≡ four_from (sheet_of s.now c) idle.now first }
{
    let mut cars = [blank(); 4];
    let n = (idle.count - first).min(4);
    for k in 0..n {
        let i = idle.at[first + k];
        cars[k] = sheet::car_at(s, c, i as u32);
    }
    cars
}

// The four of which the listed car r is one: at every fourth car they are decoded, at the others they are at hand.
pub fn four_at(s: &[u8], c: Counts, idle: &Ones, r: usize, cars: &mut [Car; 4])
    requires { Small c × (idle.now.count ≤ 64) × (r ≤ idle.now.count) × ((k : ℕ) → k < idle.now.count → get_or idle.now.at k 0 < c.cars) }
    ensures { cars.new ≡ cond (eqb (r % 4) 0) (four_from (sheet_of s.now c) idle.now r) cars.old }
{
    if (r & 3) == 0 {
        *cars = four_from(s, c, idle, r);
    }
}
