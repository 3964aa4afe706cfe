// The refusals of a car record at bit at with its id, after those counted: 8, 9, 10, 11, 13.
#![tactic(auto)]

ghost use Rattle.std.specs.Prelude.{◌≡◌, eqb};
ghost use Rattle.components.specs.Codes.{phase_code};
ghost use Rattle.components.specs.declared.Kind.TheVariants.{Car};
ghost use Rattle.conditions.specs.Ids.{CarIds};
ghost use Rattle.layout.specs.Offsets.{end_of, Small};
ghost use Rattle.layout.specs.Table.{first, past, car_line_field, car_stop_field, car_has_target_field, car_target_field, car_bypass_up_field, car_bypass_down_field};
ghost use Rattle.layout.specs.Records.{from, read};
ghost use Rattle.layout.specs.Refusals.{absent_set, present_zero, unused_stop, phase_at, refusal8_car, refusal9_car, refusal10_car, refusal11_car, refusal13};
ghost use Rattle.layout.specs.Verdict.{body_refusal};

use components::Phase;
use conditions::{Optional, pick};
use layout::{Counts, car};

// Whether the phase is 7.
fn unknown_phase(phase: Phase) -> bool
    ensures { result ≡ eqb (phase_code phase) 7 }
{
    matches!(phase, Phase::Unknown)
}

// Whether the phase leaves its stop unused, and the stop is set.
fn unused_stop(phase: Phase, set: bool) -> bool
    ensures { result ≡ unused_stop phase set }
{
    set & !matches!(
        phase,
        Phase::MovingToStop(_) | Phase::Repositioning(_) | Phase::Unknown
    )
}

// 8: phase 7, or a one bit in an absent or unused field.
fn unused_bits(
    s: &[u8],
    c: Counts,
    at: u32,
    stop: u32,
    phase: Phase,
    target: Optional,
    up: u64,
    down: u64,
) -> bool
    requires { Small c × (stop ≡ read (from s.now at) car_stop_field) × (phase ≡ phase_at (from s.now at))
        × (target.unused ≡ absent_set (from s.now at) car_has_target_field car_target_field)
        × (up ≡ read (from s.now at) (past c.across car_bypass_up_field)) × (down ≡ read (from s.now at) (past c.across car_bypass_down_field)) }
    ensures { result ≡ refusal8_car c (from s.now at) }
{
    let across = c.across;
    let unused = unused_stop(phase, stop != 0);
    let has_up = bits::flag(s, at, car::HAS_BYPASS_UP + across);
    let has_down = bits::flag(s, at, car::HAS_BYPASS_DOWN + across);
    let absent = (!has_up & (up != 0)) | (!has_down & (down != 0));
    unknown_phase(phase) | (unused | (target.unused | absent))
}

// 9: id 0 in an id field that is present and used, or the id of an earlier car.
fn bad_ids<'a>(
    s: &'a [u8],
    c: Counts,
    at: u32,
    id: u32,
    line: u32,
    stop: u32,
    phase: Phase,
    target: Optional,
    cars: &'a [u32],
) -> bool
    requires { (id ≡ read (from s.now at) (first 32)) × (line ≡ read (from s.now at) car_line_field) × (stop ≡ read (from s.now at) car_stop_field)
        × (phase ≡ phase_at (from s.now at)) × (target.zero ≡ present_zero (from s.now at) car_has_target_field car_target_field) × CarIds s.now c cars.now }
    ensures { result ≡ refusal9_car s.now c (from s.now at) }
{
    let moving = phase.is_moving();
    let again = fields::contains(cars, c.cars as usize, id);
    (id == 0) | ((line == 0) | ((moving & (stop == 0)) | (target.zero | again)))
}

// 10: no record for the line, or a mask bit past the stops.
fn unknown_records(s: &[u8], c: Counts, at: u32, line: u32) -> bool
    requires { Small c × (line ≡ read (from s.now at) car_line_field) }
    ensures { result ≡ refusal10_car s.now c (from s.now at) }
{
    let known = conditions::has_line(s, c, line);
    let stops = c.stops as usize;
    let restricted = mask::past_stops(bits::field(s, at, car::RESTRICTED + c.across, 64), stops);
    let calls = mask::past_stops(bits::field(s, at, car::CALLS + c.across, 64), stops);
    !known | (restricted | calls)
}

// 11: a double out of its range.
fn out_of_range(s: &[u8], c: Counts, at: u32, up: u64, down: u64) -> bool
    requires { Small c × (up ≡ read (from s.now at) (past c.across car_bypass_up_field)) × (down ≡ read (from s.now at) (past c.across car_bypass_down_field)) }
    ensures { result ≡ refusal11_car c (from s.now at) }
{
    let across = c.across;
    let placed = conditions::placed_at(s, at, car::POSITION, car::ACROSS, across);
    let speed = fp::is_speed(records::double_at(s, at, car::SPEED + across));
    let capacity = conditions::mass_at(s, at, car::CAPACITY + across);
    let load = conditions::mass_at(s, at, car::LOAD + across);
    let up_fits = fp::is_threshold(fp::double(up));
    let down_fits = fp::is_threshold(fp::double(down));
    !(placed & (speed & (capacity & (load & (up_fits & down_fits)))))
}

// 13: twice the transition ticks plus the open ticks above 4,294,967,295.
fn long_doors(s: &[u8], c: Counts, at: u32) -> bool
    requires { Small c }
    ensures { result ≡ refusal13 c (from s.now at) }
{
    let transition = bits::field(s, at, car::TRANSITION + c.across, 32);
    let dwell = bits::field(s, at, car::DWELL + c.across, 32);
    4_294_967_295 < 2 * transition + dwell
}

// Kind 4: 8, 9, 10, 11, 13. What more than one of them asks is read once.
pub fn car_refusal<'a>(s: &'a [u8], c: Counts, at: u32, id: u32, cars: &'a [u32]) -> u32
    requires { Small c × (at ≡ end_of c) × (id ≡ read (from s.now at) (first 32)) × CarIds s.now c cars.now }
    ensures { result ≡ body_refusal s.now c Car (from s.now (end_of c)) }
{
    let across = c.across;
    let line = bits::field32(s, at, car::LINE);
    let stop = bits::field32(s, at, car::STOP);
    let phase = Phase::of_code(bits::field(s, at, car::PHASE, 3), stop);
    let target = conditions::optional_at(s, at, car::HAS_TARGET);
    let up = bits::field(s, at, car::BYPASS_UP + across, 64);
    let down = bits::field(s, at, car::BYPASS_DOWN + across, 64);
    let unused = unused_bits(s, c, at, stop, phase, target, up, down);
    let bad = bad_ids(s, c, at, id, line, stop, phase, target, cars);
    let unknown = unknown_records(s, c, at, line);
    let late = pick(
        out_of_range(s, c, at, up, down),
        11,
        pick(long_doors(s, c, at), 13, 0),
    );
    pick(unused, 8, pick(bad, 9, pick(unknown, 10, late)))
}
