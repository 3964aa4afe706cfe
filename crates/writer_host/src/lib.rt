// The writer for a host, to be exported for C. The state is nine numbers that the host lends and start fills. Each function answers 0; or 1 where
// the state is none, 2, 6 or 7 where a record has no room, is out of order or one too many, 8 where a code stands for nothing, and nothing is
// written then. A field alone is put without a state.
#![tactic(auto)]

mod answer;
mod field;
mod state;

ghost use Rattle.std.specs.Prelude.{◌≡◌, true, length, cond, eqb, IfOk};
ghost use Rattle.layout.specs.Offsets.{end_of};
ghost use Rattle.encoder.specs.Encoded.{record_at, policy_at, stop_at, line_at, car_at, aboard_at, waiting_at, demand_at, closed_at};
ghost use Rattle.writer.specs.Puts.{start_of, head_put, sheet_bytes, finished};
ghost use Rattle.writer.specs.Puts.{put_number, left_of, answer_of, policy_answer, stop_answer, line_answer, car_answer, aboard_answer, waiting_answer};
ghost use Rattle.writer.specs.Puts.{demand_answer, closed_answer};
ghost use Rattle.writer_host.specs.Host.{counts_in, host_refusal, start_refusal, edition_of, edition_or, finish_refusal, host_number, host_left, state_left, answered};
ghost use Rattle.writer_host.specs.Host.{field_refusal};
ghost use Rattle.put.specs.Put.{put_at};
ghost use Rattle.writer_host.specs.Given.{policy_of, policy_known, stop_of, line_of, car_of, phase_known, aboard_of, waiting_of, demand_of};
ghost use Rattle.values.specs.Values.{bits_of};
ghost use Rattle.store_writer.specs.Stored.{entry, entry_put, stored_of, stored_number, stored_count, stored_left};

use answer::Refused;
use components::{
    Aboard, Car, Demand, Direction, Line, Mode, Phase, Point, Policy, Stop, Strategy, Traffic,
    Waiting,
};
use writer::record::{Closed, Limited, Record};
use writer::{Edition, PutError};

// The edition of a code.
fn edition_of(code: u32) -> Result<Edition, Refused>
    ensures { result ≡ edition_or code }
{
    match code {
        1 => Ok(Edition::First),
        2 => Ok(Edition::Second),
        _ => Err(Refused::Edition),
    }
}

// Starts a sheet of an edition, and fills the state.
fn start(sheet: &mut [u8], state: &mut [u32], edition: u32) -> Result<(), Refused>
    ensures { let l = state.old in let s = sheet.old in
        let f = start_refusal l edition in let p = start_of (length s) (edition_of edition) in
        (answered result ≡ host_number f (put_number p))
        × (sheet.new ≡ host_left f (left_of p s (head_put s (edition_of edition))) s)
        × (state.new ≡ host_left f (state_left p l) l) }
{
    if state.len() < 9 {
        return Err(Refused::NoState);
    }
    let edition = edition_of(edition)?;
    let c = writer::start(sheet, edition)?;
    state::store(state, c);
    Ok(())
}

// Puts a record after those that the state counts, and counts it there.
fn put_record<R: Record>(
    sheet: &mut [u8],
    state: &mut [u32],
    known: bool,
    x: R,
) -> Result<(), Refused>
    ensures { let l = state.old in let s = sheet.old in let c = counts_in l in
        let f = host_refusal l known in let p = answer_of (length s) c R.KIND in
        (answered result ≡ host_number f (put_number p))
        × (sheet.new ≡ host_left f (left_of p s (record_at s (end_of c) c.across R.KIND (R.values x))) s)
        × (state.new ≡ host_left f (state_left p l) l) }
{
    let c = state::counts(state, known)?;
    let next = writer::put(sheet, c, x)?;
    state::store(state, next);
    Ok(())
}

// Finishes a sheet, and answers how many bytes it has.
fn finish(sheet: &mut [u8], state: &[u32]) -> Result<usize, Refused>
    ensures { let l = state.now in let s = sheet.old in let f = finish_refusal l (length s) in
        (answered result ≡ f)
        × (sheet.new ≡ host_left f (finished s (counts_in l)) s)
        × IfOk result (λ n. n ≡ sheet_bytes (counts_in l)) }
{
    let c = state::counts(state, true)?;
    if sheet.len() < bits::bytes_for(c.end_of()) {
        return Err(Refused::Put(PutError::NoRoom));
    }
    Ok(writer::finish(sheet, c))
}

// Starts a sheet of an edition, 1 or 2, and fills the state. 1 where the state has no room for nine numbers, 3 for any other edition.
#[unsafe(no_mangle)]
pub extern "C" fn dispatch_bench_start(sheet: &mut [u8], state: &mut [u32], edition: u32) -> u32
    ensures { let l = state.old in let s = sheet.old in
        let f = start_refusal l edition in let p = start_of (length s) (edition_of edition) in
        (result ≡ host_number f (put_number p))
        × (sheet.new ≡ host_left f (left_of p s (head_put s (edition_of edition))) s)
        × (state.new ≡ host_left f (state_left p l) l) }
{
    answer::number(start(sheet, state, edition))
}

// The policy, with the candidate limit. 8 for a strategy above 2 or traffic above 3.
#[unsafe(no_mangle)]
pub extern "C" fn dispatch_bench_put_policy(
    sheet: &mut [u8],
    state: &mut [u32],
    strategy: u32,
    limit: u16,
    rate: f64,
    traffic: u32,
    w0: f64,
    w1: f64,
    w2: f64,
    w3: f64,
    w4: f64,
    w5: f64,
) -> u32
    ensures { let l = state.old in let s = sheet.old in let c = counts_in l in
        let f = host_refusal l (policy_known strategy traffic) in let p = policy_answer (length s) c in
        (result ≡ host_number f (put_number p))
        × (sheet.new ≡ host_left f (left_of p s (policy_at s (end_of c) c.across limit (policy_of strategy rate traffic w0 w1 w2 w3 w4 w5))) s)
        × (state.new ≡ host_left f (state_left p l) l) }
{
    let policy = Policy {
        strategy: Strategy::from(u64::from(strategy)),
        rate,
        traffic: Traffic::from(u64::from(traffic)),
        w0,
        w1,
        w2,
        w3,
        w4,
        w5,
    };
    let known = (strategy <= 2) & (traffic <= 3);
    let x = Limited { limit, policy };
    answer::number(put_record(sheet, state, known, x))
}

// A stop; across is written in edition 2 alone.
#[unsafe(no_mangle)]
pub extern "C" fn dispatch_bench_put_stop(
    sheet: &mut [u8],
    state: &mut [u32],
    id: u32,
    position: f64,
    across: f64,
) -> u32
    ensures { let l = state.old in let s = sheet.old in let c = counts_in l in
        let f = host_refusal l true in let p = stop_answer (length s) c in
        (result ≡ host_number f (put_number p))
        × (sheet.new ≡ host_left f (left_of p s (stop_at s (end_of c) c.across (stop_of id position across))) s)
        × (state.new ≡ host_left f (state_left p l) l) }
{
    let x = Stop {
        id,
        position: Point {
            along: position,
            across,
        },
    };
    answer::number(put_record(sheet, state, true, x))
}

// A line; the highest bit of serves is the first stop.
#[unsafe(no_mangle)]
pub extern "C" fn dispatch_bench_put_line(
    sheet: &mut [u8],
    state: &mut [u32],
    id: u32,
    serves: u64,
) -> u32
    ensures { let l = state.old in let s = sheet.old in let c = counts_in l in
        let f = host_refusal l true in let p = line_answer (length s) c in
        (result ≡ host_number f (put_number p))
        × (sheet.new ≡ host_left f (left_of p s (line_at s (end_of c) c.across (line_of id serves))) s)
        × (state.new ≡ host_left f (state_left p l) l) }
{
    answer::number(put_record(sheet, state, true, Line { id, serves }))
}

// A rider in a car; a destination of 0 is none.
#[unsafe(no_mangle)]
pub extern "C" fn dispatch_bench_put_aboard(
    sheet: &mut [u8],
    state: &mut [u32],
    car: u32,
    destination: u32,
) -> u32
    ensures { let l = state.old in let s = sheet.old in let c = counts_in l in
        let f = host_refusal l true in let p = aboard_answer (length s) c in
        (result ≡ host_number f (put_number p))
        × (sheet.new ≡ host_left f (left_of p s (aboard_at s (end_of c) c.across (aboard_of car destination))) s)
        × (state.new ≡ host_left f (state_left p l) l) }
{
    answer::number(put_record(sheet, state, true, Aboard { car, destination }))
}

// A rider at a stop; a line or a destination of 0 is none.
#[unsafe(no_mangle)]
pub extern "C" fn dispatch_bench_put_waiting(
    sheet: &mut [u8],
    state: &mut [u32],
    stop: u32,
    line: u32,
    destination: u32,
    weight: f64,
    wait: u64,
) -> u32
    ensures { let l = state.old in let s = sheet.old in let c = counts_in l in
        let f = host_refusal l true in let p = waiting_answer (length s) c in
        (result ≡ host_number f (put_number p))
        × (sheet.new ≡ host_left f (left_of p s (waiting_at s (end_of c) c.across (waiting_of stop line destination weight wait))) s)
        × (state.new ≡ host_left f (state_left p l) l) }
{
    let x = Waiting {
        stop,
        line,
        destination,
        weight,
        wait,
    };
    answer::number(put_record(sheet, state, true, x))
}

// A stop's demand; call is 1 where a hall call there has no pending rider.
#[unsafe(no_mangle)]
pub extern "C" fn dispatch_bench_put_demand(
    sheet: &mut [u8],
    state: &mut [u32],
    stop: u32,
    riding: u16,
    call: u32,
) -> u32
    ensures { let l = state.old in let s = sheet.old in let c = counts_in l in
        let f = host_refusal l true in let p = demand_answer (length s) c in
        (result ≡ host_number f (put_number p))
        × (sheet.new ≡ host_left f (left_of p s (demand_at s (end_of c) c.across (demand_of stop riding call))) s)
        × (state.new ≡ host_left f (state_left p l) l) }
{
    let x = Demand {
        stop,
        riding,
        call: call != 0,
    };
    answer::number(put_record(sheet, state, true, x))
}

// A closed landing.
#[unsafe(no_mangle)]
pub extern "C" fn dispatch_bench_put_closed(sheet: &mut [u8], state: &mut [u32], stop: u32) -> u32
    ensures { let l = state.old in let s = sheet.old in let c = counts_in l in
        let f = host_refusal l true in let p = closed_answer (length s) c in
        (result ≡ host_number f (put_number p))
        × (sheet.new ≡ host_left f (left_of p s (closed_at s (end_of c) c.across stop)) s)
        × (state.new ≡ host_left f (state_left p l) l) }
{
    answer::number(put_record(sheet, state, true, Closed { stop }))
}

// A car; the stop is that of phases 1 and 2, a target of 0 is none, across is written in edition 2 alone. 8 for a phase above 6.
#[unsafe(no_mangle)]
pub extern "C" fn dispatch_bench_put_car(
    sheet: &mut [u8],
    state: &mut [u32],
    id: u32,
    line: u32,
    phase: u32,
    stop: u32,
    target: u32,
    listed: u32,
    up: u32,
    down: u32,
    sweep: u32,
    mode: u32,
    position: f64,
    across: f64,
    speed: f64,
    capacity: f64,
    load: f64,
    hasbypassup: u32,
    bypassup: f64,
    hasbypassdown: u32,
    bypassdown: f64,
    transition: u32,
    dwell: u32,
    restricted: u64,
    calls: u64,
) -> u32
    ensures { let l = state.old in let s = sheet.old in let c = counts_in l in
        let f = host_refusal l (phase_known phase) in let p = car_answer (length s) c in
        let x = car_of id line phase stop target listed up down sweep mode position across speed capacity load
        hasbypassup bypassup hasbypassdown bypassdown transition dwell restricted calls in
        (result ≡ host_number f (put_number p))
        × (sheet.new ≡ host_left f (left_of p s (car_at s (end_of c) c.across x)) s)
        × (state.new ≡ host_left f (state_left p l) l) }
{
    let x = Car {
        id,
        line,
        phase: Phase::of_code(u64::from(phase), stop),
        target,
        listed: listed != 0,
        up: up != 0,
        down: down != 0,
        direction: Direction::from(sweep != 0),
        mode: Mode::from(mode != 0),
        position: Point {
            along: position,
            across,
        },
        speed,
        capacity,
        load,
        bypassup: (hasbypassup != 0).then_some(bypassup),
        bypassdown: (hasbypassdown != 0).then_some(bypassdown),
        transition,
        dwell,
        restricted,
        calls,
    };
    answer::number(put_record(sheet, state, phase <= 6, x))
}

// Finishes a sheet, and gives its bytes: the first so many of what was lent are the sheet. 2 where it ends before the last record.
#[unsafe(no_mangle)]
pub extern "C" fn dispatch_bench_finish(sheet: &mut [u8], state: &[u32], bytes: &mut u64) -> u32
    ensures { let l = state.now in let s = sheet.old in let f = finish_refusal l (length s) in
        (result ≡ f)
        × (sheet.new ≡ host_left f (finished s (counts_in l)) s)
        × (bytes.new ≡ cond (eqb f 0) (sheet_bytes (counts_in l)) bytes.old) }
{
    match finish(sheet, state) {
        Ok(n) => {
            *bytes = n as u64;
            0
        }
        Err(refused) => refused.number(),
    }
}

// A record of a store of weights, after count others: a weight slot, the day from which it holds, the issue and the weight. 0, and count is one more;
// else 2 or 7, where it has no room or is one too many, and nothing is written.
#[unsafe(no_mangle)]
pub extern "C" fn dispatch_bench_put_weight(
    store: &mut [u8],
    count: &mut u16,
    setting: u8,
    start: u32,
    issue: u16,
    weight: f64,
) -> u32
    ensures { let s = store.old in let n = count.old in let a = stored_of (length s) n in
        (result ≡ stored_number a)
        × (store.new ≡ stored_left a s (entry_put s n (entry setting start issue (bits_of weight))))
        × (count.new ≡ stored_count a n) }
{
    match store_writer::put_weight(store, *count, setting, start, issue, weight) {
        Ok(n) => {
            *count = n;
            0
        }
        Err(error) => error.number(),
    }
}

// A field of a sheet, whatever it holds: the bits of value in the width bits from bit at. 8 for a width above 64 or a value of more bits than it has.
#[unsafe(no_mangle)]
pub extern "C" fn dispatch_bench_put_field(sheet: &mut [u8], at: u32, width: u32, value: u64) -> u32
    ensures { let s = sheet.old in let f = field_refusal (length s) at width value in
        (result ≡ f) × (sheet.new ≡ host_left f (put_at s at width value) s) }
{
    match field::check(sheet.len(), at, width, value) {
        Ok(()) => {
            put::put(sheet, at, 0, width as usize, value);
            0
        }
        Err(refused) => refused.number(),
    }
}
