// A car's record, put in place at the bit where it starts. Its body is put in parts.
#![tactic(auto)]

ghost use Rattle.std.specs.Prelude.{◌≡◌, [], ◌∷◌};
ghost use Rattle.laws.specs.Bools.{bit};
ghost use Rattle.components.specs.Codes.{phase_code, direction_code, mode_code};
ghost use Rattle.layout.specs.Table.{past, car_id_field, car_line_field, car_phase_field, car_stop_field, car_has_target_field, car_target_field, car_listed_field, car_up_field, car_down_field};
ghost use Rattle.layout.specs.Table.{car_sweep_field, car_mode_field, car_position_field, car_across_field, car_speed_field, car_capacity_field, car_load_field, car_has_bypass_up_field};
ghost use Rattle.layout.specs.Table.{car_bypass_up_field, car_has_bypass_down_field, car_bypass_down_field, car_transition_field, car_dwell_field, car_restricted_field, car_calls_field};
ghost use Rattle.layout.specs.Table.{field};
ghost use Rattle.values.specs.Values.{bits_of, present, phase_stop, threshold_present, threshold_bits};
ghost use Rattle.encoder.specs.Encoded.{fields_put, car_at};

use components::{Car, Kind};
use encoder::Place;
use encoder::parts::{put_double, put_front, put_optional, put_point};
use layout::car;
use put::put;

// Which car it is, and what it does.
fn put_errand(s: &mut [u8], at: u32, x: Car)
    ensures { s.new ≡ fields_put s.old at
        (car_id_field ∷ car_line_field ∷ car_phase_field ∷ car_stop_field ∷ car_has_target_field ∷ car_target_field ∷ [])
        (x.id ∷ x.line ∷ phase_code x.phase ∷ phase_stop x.phase ∷ present x.target ∷ x.target ∷ []) }
{
    let phase = x.phase;
    put(s, at, car::ID, 32, x.id as u64);
    put(s, at, car::LINE, 32, x.line as u64);
    put(s, at, car::PHASE, 3, u64::from(phase));
    put(s, at, car::STOP, 32, values::phase_stop(phase) as u64);
    put_optional(s, at, car::HAS_TARGET, car::TARGET, x.target);
}

// Its five single bits.
fn put_flags(s: &mut [u8], at: u32, x: Car)
    ensures { s.new ≡ fields_put s.old at (car_listed_field ∷ car_up_field ∷ car_down_field ∷ car_sweep_field ∷ car_mode_field ∷ [])
        (bit x.listed ∷ bit x.up ∷ bit x.down ∷ direction_code x.direction ∷ mode_code x.mode ∷ []) }
{
    put(s, at, car::LISTED, 1, u64::from(x.listed));
    put(s, at, car::UP, 1, u64::from(x.up));
    put(s, at, car::DOWN, 1, u64::from(x.down));
    put(s, at, car::SWEEP, 1, u64::from(x.direction));
    put(s, at, car::MODE, 1, u64::from(x.mode));
}

// Where it stands, how fast it runs and what it carries.
fn put_motion(s: &mut [u8], place: Place, x: Car)
    ensures { s.new ≡ fields_put s.old place.at
        (car_position_field ∷ car_across_field place.across ∷ past place.across car_speed_field ∷ past place.across car_capacity_field ∷ past place.across car_load_field ∷ [])
        (bits_of x.position.along ∷ bits_of x.position.across ∷ bits_of x.speed ∷ bits_of x.capacity ∷ bits_of x.load ∷ []) }
{
    let at = place.at;
    let across = place.across;
    put_point(s, place, car::POSITION, car::ACROSS, x.position);
    put_double(s, at, car::SPEED + across, x.speed);
    put_double(s, at, car::CAPACITY + across, x.capacity);
    put_double(s, at, car::LOAD + across, x.load);
}

// A threshold: its present bit, and its bits.
fn put_threshold(s: &mut [u8], at: u32, has: u32, off: u32, x: Option<f64>)
    ensures { s.new ≡ fields_put s.old at (field has 1 ∷ field off 64 ∷ [])
        (threshold_present x ∷ threshold_bits x ∷ []) }
{
    put(s, at, has, 1, values::threshold_present(x));
    put(s, at, off, 64, values::threshold_bits(x));
}

fn put_thresholds(s: &mut [u8], place: Place, x: Car)
    ensures { s.new ≡ fields_put s.old place.at
        (past place.across car_has_bypass_up_field ∷ past place.across car_bypass_up_field ∷ past place.across car_has_bypass_down_field ∷ past place.across car_bypass_down_field ∷ [])
        (threshold_present x.bypassup ∷ threshold_bits x.bypassup ∷ threshold_present x.bypassdown ∷ threshold_bits x.bypassdown
        ∷ []) }
{
    let at = place.at;
    let across = place.across;
    let up = x.bypassup;
    let down = x.bypassdown;
    put_threshold(
        s,
        at,
        car::HAS_BYPASS_UP + across,
        car::BYPASS_UP + across,
        up,
    );
    put_threshold(
        s,
        at,
        car::HAS_BYPASS_DOWN + across,
        car::BYPASS_DOWN + across,
        down,
    );
}

// Its doors and its masks.
fn put_doors(s: &mut [u8], place: Place, x: Car)
    ensures { s.new ≡ fields_put s.old place.at
        (past place.across car_transition_field ∷ past place.across car_dwell_field ∷ past place.across car_restricted_field ∷ past place.across car_calls_field ∷ [])
        (x.transition ∷ x.dwell ∷ x.restricted ∷ x.calls ∷ []) }
{
    let at = place.at;
    let across = place.across;
    put(s, at, car::TRANSITION + across, 32, x.transition as u64);
    put(s, at, car::DWELL + across, 32, x.dwell as u64);
    put(s, at, car::RESTRICTED + across, 64, x.restricted);
    put(s, at, car::CALLS + across, 64, x.calls);
}

// The record; its second coordinate in some bits, none or 64.
pub fn put_car(s: &mut [u8], place: Place, x: Car)
    ensures { s.new ≡ car_at s.old place.at place.across x }
{
    put_front(s, place, Kind::Car);
    put_errand(s, place.at, x);
    put_flags(s, place.at, x);
    put_motion(s, place, x);
    put_thresholds(s, place, x);
    put_doors(s, place, x);
}
