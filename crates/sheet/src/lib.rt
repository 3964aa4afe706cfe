// The reader: every byte string is a sheet or one numbered refusal. An accepted sheet is its bytes and its counts; a record is decoded in place.
#![tactic(auto)]

ghost use Rattle.std.specs.Prelude.{◌≡◌, true, ◌+◌, ◌<◌, length, Ok};
ghost use Rattle.bits.specs.Field.{field_at, IsField};
ghost use Rattle.components.specs.Codes.{kind_of};
ghost use Rattle.layout.specs.Offsets.{head_length, across_bits, Small, none, end_of, last_kind};
ghost use Rattle.layout.specs.Table.{first};
ghost use Rattle.layout.specs.Records.{from, read, policy_of, sheet_of, limit_of};
ghost use Rattle.layout.specs.Refusals.{edition, kind_at, length_at, past_end, refusal4, tail_fits};
ghost use Rattle.layout.specs.Verdict.{head_rules, first_of, given, body_refusal, record_refusal, tail_verdict, records_verdict, verdict};
ghost use Rattle.sheet.specs.Kept.{kept, keeps, Before};

use components::{Car, Kind, Line, Policy};
use conditions::pick;
use layout::{Counts, Refusal, head, line, policy, record};

// How a record starts: the code of its kind, the stated length, and of every kind but the policy the first field, an id.
#[derive(Clone, Copy)]
struct Front {
    code: u64,
    length: u64,
    id: u32,
}

// The ids of the stops, cars, demands and closed landings that are read, which later records are held to.
#[derive(Clone, Copy)]
struct Tables {
    stops: [u32; 64],
    cars: [u32; 32],
    demands: [u32; 64],
    closures: [u32; 64],
}

// Whether bit e lies past the end.
fn past_end(s: &[u8], e: u32) -> bool
    ensures { result ≡ past_end s.now e }
{
    s.len() < bits::bytes_for(e)
}

// The front of the record at bit at, read at once.
fn front_at(s: &[u8], at: u32) -> Front
    ensures { IsField s.now (at + 0) 6 result.code × IsField s.now (at + 6) 16 result.length
        × (result.id ≡ field_at s.now (at + 22) 32) }
{
    let front = bits::field(s, at, record::KIND, 54);
    Front {
        code: front >> 48,
        length: (front >> 32) & 0xffff,
        id: (front & 0xffff_ffff) as u32,
    }
}

// 4: kind not 1 to 8.
fn is_unknown(kind: Kind) -> bool
    ensures { result ≡ refusal4 kind }
{
    matches!(kind, Kind::Unknown)
}

// The refusal of the record at bit at, after those counted, where its kind and what its body is refused for are known: the first number whose
// condition holds, 0 where none does.
fn record_refusal(
    s: &[u8],
    c: Counts,
    last: u64,
    at: u32,
    front: Front,
    kind: Kind,
    body: u32,
) -> u32
    requires { Small c × (at ≡ end_of c) × (last ≡ last_kind c) × (front.code ≡ kind_at s.now c) × (front.length ≡ length_at s.now c)
        × (front.length < 65536) × (kind ≡ kind_of (kind_at s.now c)) × (body ≡ body_refusal s.now c kind (from s.now (end_of c))) }
    ensures { result ≡ record_refusal s.now c }
{
    let short = past_end(s, at + record::BODY + front.length as u32);
    let wrong = front.length != layout::body_length(kind, c.across);
    let unordered = (front.code < last) | ((c.policies == 0) & (front.code != 1));
    let late = pick(unordered, 6, pick(c.is_full(kind), 7, body));
    pick(short, 2, pick(is_unknown(kind), 4, pick(wrong, 5, late)))
}

// A table of ids after a record: where it is of the table's kind, its id at place n.
fn keep(ours: bool, n: u32, id: u32, ids: &mut [u32])
    requires { (ours ≡ true) → (n < length ids.old) }
    ensures { ids.new ≡ kept ours n id ids.old }
{
    if ours {
        ids[n as usize] = id;
    }
}

// The record at bit at, of a kind: its refusal; where it has none and its kind a table, its id is kept.
fn take_record(
    s: &[u8],
    c: Counts,
    last: u64,
    at: u32,
    front: Front,
    kind: Kind,
    tables: &mut Tables,
) -> u32
    requires { Small c × Before s.now c at last tables.old.stops tables.old.cars tables.old.demands tables.old.closures
        × (front.code ≡ kind_at s.now c) × (front.length ≡ length_at s.now c) × (front.length < 65536)
        × (front.id ≡ read (from s.now at) (first 32)) × (kind ≡ kind_of (kind_at s.now c)) }
    ensures { (result ≡ record_refusal s.now c)
        × (tables.new.stops ≡ kept (keeps kind 2 result) c.stops front.id tables.old.stops)
        × (tables.new.cars ≡ kept (keeps kind 4 result) c.cars front.id tables.old.cars)
        × (tables.new.demands ≡ kept (keeps kind 7 result) c.demands front.id tables.old.demands)
        × (tables.new.closures ≡ kept (keeps kind 8 result) c.closures front.id tables.old.closures) }
{
    let id = front.id;
    match kind {
        Kind::Policy => {
            let body = refusals_policy::policy_refusal(s, c, at);
            record_refusal(s, c, last, at, front, Kind::Policy, body)
        }
        Kind::Stop => {
            let body = refusals::stop_refusal(s, c, at, id);
            let number = record_refusal(s, c, last, at, front, Kind::Stop, body);
            keep(number == 0, c.stops, id, &mut tables.stops);
            number
        }
        Kind::Line => {
            let body = refusals::line_refusal(s, c, at, id);
            record_refusal(s, c, last, at, front, Kind::Line, body)
        }
        Kind::Car => {
            let body = refusals_car::car_refusal(s, c, at, id, &tables.cars);
            let number = record_refusal(s, c, last, at, front, Kind::Car, body);
            keep(number == 0, c.cars, id, &mut tables.cars);
            number
        }
        Kind::Aboard => {
            let body = refusals::aboard_refusal(s, c, at, id, &tables.cars);
            record_refusal(s, c, last, at, front, Kind::Aboard, body)
        }
        Kind::Waiting => {
            let body = refusals::waiting_refusal(s, c, at, id, &tables.stops);
            record_refusal(s, c, last, at, front, Kind::Waiting, body)
        }
        Kind::Demand => {
            let body = refusals::one_a_stop(id, &tables.stops, c.stops, &tables.demands, c.demands);
            let number = record_refusal(s, c, last, at, front, Kind::Demand, body);
            keep(number == 0, c.demands, id, &mut tables.demands);
            number
        }
        Kind::Closed => {
            let body = refusals::one_a_stop(
                id,
                &tables.stops,
                c.stops,
                &tables.closures,
                c.closures,
            );
            let number = record_refusal(s, c, last, at, front, Kind::Closed, body);
            keep(number == 0, c.closures, id, &mut tables.closures);
            number
        }
        Kind::Unknown => record_refusal(s, c, last, at, front, Kind::Unknown, 0),
    }
}

// Whether fewer than 8 bits are left after the last record, and they are zero.
fn tail_fits(s: &[u8], c: Counts) -> bool
    requires { Small c }
    ensures { result ≡ tail_fits s.now c }
{
    let at = c.end_of();
    if s.len() != bits::bytes_for(at) {
        return false;
    }
    bits::field(s, at, 0, bits::padding(at)) == 0
}

// Refused with a number at a bit, or the sheet is accepted.
fn given(number: u32, at: u32, c: Counts) -> Result<Counts, Refusal>
    ensures { result ≡ given number at (Ok c) }
{
    if number == 0 {
        Ok(c)
    } else {
        Err(Refusal {
            number,
            offset: at as u64,
        })
    }
}

// The tail, after the last record: 6 where there is no record, 16.
fn tail(s: &[u8], c: Counts) -> Result<Counts, Refusal>
    requires { Small c }
    ensures { result ≡ tail_verdict s.now c }
{
    let none = bits::field(s, 0, head::COUNT, 16) == 0;
    let number = pick(none, 6, pick(!tail_fits(s, c), 16, 0));
    given(number, c.end_of(), c)
}

// The records in turn: the first refusal, or the tail. The ids that later records are held to are kept as they are read.
fn records(s: &[u8], across: u32, count: u32) -> Result<Counts, Refusal>
    requires { across ≡ across_bits (edition s.now) }
    ensures { result ≡ records_verdict s.now count (none across) }
{
    let mut c = Counts::none(across);
    let mut at = head::BITS;
    let mut last: u64 = 0;
    let mut tables = Tables {
        stops: [0; 64],
        cars: [0; 32],
        demands: [0; 64],
        closures: [0; 64],
    };
    for i in 0..count {
        let front = front_at(s, at);
        let kind = Kind::of_code(front.code);
        let n = take_record(s, c, last, at, front, kind, &mut tables);
        if n != 0 {
            return Err(Refusal {
                number: n,
                offset: at as u64,
            });
        }
        c = c.next(kind);
        at = at + record::BODY + front.length as u32;
        last = front.code;
    }
    tail(s, c)
}

// The refusal of the head: 2 before 3.
fn head_refusal(s: &[u8]) -> u32
    ensures { result ≡ first_of (head_rules s.now) }
{
    let edition = bits::field(s, 0, head::EDITION, 8);
    let known = (edition == 1) | (edition == 2);
    pick(past_end(s, head::BITS), 2, pick(!known, 3, 0))
}

// The verdict on a byte string: the counts of an accepted sheet, or its refusal.
pub fn read(s: &[u8]) -> Result<Counts, Refusal>
    ensures { result ≡ verdict s.now }
{
    let number = head_refusal(s);
    if number != 0 {
        return Err(Refusal { number, offset: 0 });
    }
    let across = layout::across_bits(bits::field(s, 0, head::EDITION, 8));
    let count = bits::field(s, 0, head::COUNT, 16);
    records(s, across, count as u32)
}

// The policy record of a sheet, without its limit.
pub fn policy_at(s: &[u8]) -> Policy
    ensures { result ≡ policy_of (from s.now head_length) }
{
    records::policy_at(s, head::BITS)
}

// The candidate limit.
pub fn limit(s: &[u8]) -> u64
    ensures { result ≡ limit_of s.now }
{
    bits::field(s, head::BITS, policy::LIMIT, 16)
}

// Line record i.
pub fn line_at(s: &[u8], c: Counts, i: u32) -> Line
    requires { Small c × (i < c.lines) }
    ensures { result ≡ (sheet_of s.now c).line i }
{
    records::line_at(s, c.lines_from() + line::BITS * i)
}

// Car record i.
pub fn car_at(s: &[u8], c: Counts, i: u32) -> Car
    requires { Small c × (i < c.cars) }
    ensures { result ≡ (sheet_of s.now c).car i }
{
    records::car_at(s, c.car_start(i), c.across)
}
