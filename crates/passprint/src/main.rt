// A sheet on standard input; on standard output the lines of its pass, or of its refusal.
//
// What is proved: `lines` puts into its buffer the text that specs/Lines.antt defines of the bytes, character by character: every number, every
// decision and every sweep of it is that of the pass over the bytes. That text is also that of any longer input with these first 65,536
// bytes (`printed_first` of specs/LineLaws.antt), so the rest is not read. No contract can say what is read from a file or written to one: that
// `main` hands `lines` the bytes of standard input and writes its buffer's text to standard output is tested, not proved.
#![tactic(auto)]

ghost use Rattle.std.specs.Prelude.{◌≡◌, ◌++◌, ◌+◌, ◌≤◌, ◌<◌, Ok, length, drop};
ghost use Rattle.text.specs.Counts.{IsPrefixLen as Counted};
ghost use Rattle.text.specs.Text.{Put};
ghost use Rattle.layout.specs.Offsets.{Small};
ghost use Rattle.layout.specs.Records.{sheet_of, limit_of};
ghost use Rattle.layout.specs.Verdict.{verdict};
ghost use Rattle.rows.specs.MatrixLaws.{Rows};
ghost use Rattle.passprint.specs.Lines.{held_end, head_line, decision_end, decision_line, refusal_line, row_decision, row_sweep, printed};
ghost use Rattle.text.specs.Lines.{lines_of};
ghost use Rattle.passprint.specs.LineLaws.{code_word, code_end, code_line, Answered, Decided, Swept};

use bench::Passed;
use layout::{Counts, Refusal};
use mask::Ones;
use std::env::FillError;
use std::io;
use std::rt::Env;

// ` held H`, which ends the first line.
fn held_end(out: &mut [u8], at: usize, held: u64) -> usize
    requires { at + 27 ≤ length out.old }
    ensures { Put out.old at (held_end held) out.new result × (result ≤ at + 27) }
{
    let a = text::put(out, at, b" held ");
    let b = text::put_decimal(out, a, held);
    text::put(out, b, b"\n")
}

// `cars N stops M total T held H`.
fn head_line(out: &mut [u8], cars: u64, stops: u64, total: u64, held: u64) -> usize
    requires { 106 ≤ length out.old }
    ensures { Put out.old 0 (head_line cars stops total held) out.new result × (result ≤ 106) }
{
    let a = text::put(out, 0, b"cars ");
    let b = text::put_decimal(out, a, cars);
    let c = text::put(out, b, b" stops ");
    let d = text::put_decimal(out, c, stops);
    let e = text::put(out, d, b" total ");
    let f = text::put_decimal(out, e, total);
    held_end(out, f, held)
}

// `refused N at OFFSET`.
fn refusal_line(out: &mut [u8], number: u32, offset: u64) -> usize
    requires { 80 ≤ length out.old }
    ensures { Put out.old 0 (refusal_line number offset) out.new result × (result ≤ 80) }
{
    let a = text::put(out, 0, b"refused ");
    let b = text::put_decimal(out, a, number as u64);
    let c = text::put(out, b, b" at ");
    let d = text::put_decimal(out, c, offset);
    text::put(out, d, b"\n")
}

// Where the car goes; 0 is idle.
fn decision_end(out: &mut [u8], at: usize, stop: u32) -> usize
    requires { at + 27 ≤ length out.old }
    ensures { Put out.old at (decision_end stop) out.new result × (result ≤ at + 27) }
{
    if stop == 0 {
        return text::put(out, at, b" idle\n");
    }
    let a = text::put(out, at, b" stop ");
    let b = text::put_decimal(out, a, stop as u64);
    text::put(out, b, b"\n")
}

// `car CAR stop STOP` or `car CAR idle`.
fn decision_line(out: &mut [u8], at: usize, car: u32, stop: u32) -> usize
    requires { at + 60 ≤ length out.old }
    ensures { Put out.old at (decision_line car stop) out.new result × (result ≤ at + 60) }
{
    let a = text::put(out, at, b"car ");
    let b = text::put_decimal(out, a, car as u64);
    decision_end(out, b, stop)
}

fn direction_word(out: &mut [u8], at: usize, code: u8) -> usize
    requires { at + 5 ≤ length out.old }
    ensures { Put out.old at (code_word code) out.new result × (result ≤ at + 5) }
{
    if code < 2 {
        return text::put(out, at, b" up");
    }
    text::put(out, at, b" down")
}

fn mode_end(out: &mut [u8], at: usize, code: u8) -> usize
    requires { at + 9 ≤ length out.old }
    ensures { Put out.old at (code_end code) out.new result × (result ≤ at + 9) }
{
    if code % 2 == 0 {
        return text::put(out, at, b" strict\n");
    }
    text::put(out, at, b" lenient\n")
}

// `sweep CAR up strict`, by 2 × sweep + mode.
fn sweep_line(out: &mut [u8], at: usize, car: u32, code: u8) -> usize
    requires { at + 60 ≤ length out.old }
    ensures { Put out.old at (code_line car code) out.new result × (result ≤ at + 60) }
{
    let a = text::put(out, at, b"sweep ");
    let b = text::put_decimal(out, a, car as u64);
    let c = direction_word(out, b, code);
    mode_end(out, c, code)
}

// The id of car record i.
fn car_id(s: &[u8], c: Counts, i: usize) -> u32
    requires { Small c × (i < c.cars) }
    ensures { result ≡ ((sheet_of s.now c).car i).id }
{
    sheet::car_at(s, c, i as u32).id
}

// A line for each idle car's decision.
fn decision_lines(
    s: &[u8],
    c: Counts,
    cars: Ones,
    decisions: &[u32],
    out: &mut [u8],
    from: usize,
) -> usize
    requires { Small c × Rows (sheet_of s.now c) cars
        × Decided (sheet_of s.now c) (limit_of s.now) decisions.now × (from + 1920 ≤ length out.old) }
    ensures { Put out.old from (lines_of (row_decision (sheet_of s.now c) (limit_of s.now)) cars.count)
        out.new result × (result ≤ from + 1920) }
{
    let mut at = from;
    for r in 0..cars.count {
        at = decision_line(out, at, car_id(s, c, cars.at[r]), decisions[r]);
    }
    at
}

// A line for each idle car's sweep and mode.
fn sweep_lines(s: &[u8], c: Counts, cars: Ones, sweeps: &[u8], out: &mut [u8], from: usize) -> usize
    requires { Small c × Rows (sheet_of s.now c) cars × Swept (sheet_of s.now c) sweeps.now
        × (from + 1920 ≤ length out.old) }
    ensures { Put out.old from (lines_of (row_sweep (sheet_of s.now c)) cars.count) out.new result
        × (result ≤ from + 1920) }
{
    let mut at = from;
    for r in 0..cars.count {
        let i = cars.at[r];
        at = sweep_line(out, at, car_id(s, c, i), sweeps[i]);
    }
    at
}

// The lines of a pass that was made, where its answer and its buffers are at hand.
fn sent_lines(
    s: &[u8],
    c: Counts,
    passed: Passed,
    decisions: &[u32],
    sweeps: &[u8],
    out: &mut [u8],
) -> usize
    requires { (verdict s.now ≡ Ok c)
        × Answered (sheet_of s.now c) (limit_of s.now) passed.cars passed.stops passed.total passed.held
        × Decided (sheet_of s.now c) (limit_of s.now) decisions.now × Swept (sheet_of s.now c) sweeps.now
        × (4096 ≤ length out.old) }
    ensures { Put out.old 0 (printed s.now) out.new result × (result ≤ 4096) }
{
    let idle = cells::list_cars(s, c);
    let a = head_line(out, passed.cars, passed.stops, passed.total, passed.held);
    let b = decision_lines(s, c, idle, decisions, out, a);
    sweep_lines(s, c, idle, sweeps, out, b)
}

// The lines of an accepted sheet.
fn pass_lines(s: &[u8], c: Counts, out: &mut [u8]) -> usize
    requires { (verdict s.now ≡ Ok c) × (4096 ≤ length out.old) }
    ensures { Put out.old 0 (printed s.now) out.new result × (result ≤ 4096) }
{
    let mut decisions = [0u32; 32];
    let mut matrix = [0u64; 2048];
    let mut sweeps = [0u8; 32];
    match bench::pass(s, &mut decisions, &mut matrix, &mut sweeps) {
        Err(Refusal { number, offset }) => refusal_line(out, number, offset),
        Ok(passed) => sent_lines(s, c, passed, &decisions, &sweeps, out),
    }
}

// The text of a byte string, at the start of the buffer, whose rest is kept; answers its length.
fn lines(s: &[u8], out: &mut [u8; 4096]) -> usize
    ensures counted { Counted result out.new }
    ensures value { (result ≡ length (printed s.now)) × (out.new ≡ printed s.now ++ drop result out.old) }
{
    match sheet::read(s) {
        Err(Refusal { number, offset }) => refusal_line(out, number, offset),
        Ok(c) => pass_lines(s, c, out),
    }
}

fn print_lines(rt: &(impl Print + Eprint), s: &[u8]) -> io::Result<()> {
    let mut out = [0u8; 4096];
    let n = lines(s, &mut out);
    if rt.write_all(&out[..n]).is_err() {
        eprintln!(rt; "passprint: standard output cannot be written")?;
    }
    Ok(())
}

fn usage(rt: &impl Print) -> io::Result<()> {
    rt.write_all(
        b"usage: passprint < SHEET\n\nPrints the pass over one sheet: its idle cars, pending stops, least total and held cells,\n",
    )?;
    rt.write_all(
        b"then each idle car's stop, then each idle car's sweep and mode; or why the sheet is refused.\n",
    )
}

fn has_arguments(rt: &impl Env) -> bool {
    let mut word = [0u8; 1];
    !matches!(rt.arg(1, &mut word), Err(FillError::NotPresent))
}

// All is read that counts where `read_full` answers a length: the buffer is full, or the input ends there. A read that failed leaves an input that has
// not ended.
fn main(rt: HostRuntime) -> io::Result<()> {
    if has_arguments(&rt) {
        return usage(&rt);
    }
    // No sheet is longer, and what is longer is printed as its first bytes, so the buffer is of one size.
    let mut sheet = [0u8; 65536];
    let mut input = rt.reader();
    match lists::read_full(&mut input, &mut sheet) {
        Ok(n) => print_lines(&rt, &sheet[..n]),
        Err(_) => eprintln!(rt; "passprint: standard input cannot be read"),
    }
}
