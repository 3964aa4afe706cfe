// Prints every matrix of 2 cars and 3 columns with cells 0 to 2, a line each: its cells row by row, the two columns that the plain matcher chooses,
// and their total (request F-13).
//
// What is proved: `lines` puts into its buffer the text that specs/EveryMatrix.antt defines, character by character; line k of it is matrix k with
// the choice's columns and total, and each matrix has one line, in order (proofs/Once.antt). No contract can say what is written to a file: that
// `main` writes that text to standard output is tested, not proved.
#![tactic(auto)]

ghost use Rattle.std.specs.Prelude.{◌≡◌, ◌++◌, ◌+◌, ◌≤◌, ◌<◌, length, drop};
ghost use Rattle.text.specs.Counts.{IsPrefixLen as Counted};
ghost use Rattle.text.specs.Text.{Put};
ghost use Rattle.every_matrix.specs.EveryMatrix.{matrix_of, line_text, line_of, every_matrix};
ghost use Rattle.every_matrix.specs.Laws.{Digits};

use plain_matcher::{Chosen, Columns};
use std::io;

// The cells of matrix k: its six digits in base 3.
fn matrix(k: u64) -> [u64; 6]
    ensures { result ≡ matrix_of k }
{
    [
        k / 243 % 3,
        k / 81 % 3,
        k / 27 % 3,
        k / 9 % 3,
        k / 3 % 3,
        k % 3,
    ]
}

// The character of a digit.
fn digit(x: u64) -> u8
    requires { x < 10 }
    ensures { result ≡ 48 + x }
{
    48 + x as u8
}

// `000000 0 1 0`, of numbers that have one digit each.
fn line_of(cells: [u64; 6], columns: Columns, total: u64) -> [u8; 13]
    requires { Digits cells columns.first columns.second total }
    ensures { result ≡ line_text cells columns.first columns.second total }
{
    [
        digit(cells[0]),
        digit(cells[1]),
        digit(cells[2]),
        digit(cells[3]),
        digit(cells[4]),
        digit(cells[5]),
        b' ',
        digit(columns.first as u64),
        b' ',
        digit(columns.second as u64),
        b' ',
        digit(total),
        b'\n',
    ]
}

// The line of matrix k.
fn line(k: u64) -> [u8; 13]
    ensures { result ≡ line_of k }
{
    let cells = matrix(k);
    match plain_matcher::assign(2, 3, &cells) {
        Err(_) => unreachable!(),
        Ok(Chosen { columns, total }) => line_of(cells, columns, total),
    }
}

// The lines of all matrices, at the start of the buffer, whose rest is kept; answers their length.
fn put_lines(out: &mut [u8]) -> usize
    requires { 9477 ≤ length out.old }
    ensures { Put out.old 0 every_matrix out.new result }
{
    let mut at: usize = 0;
    for k in 0..729 {
        at = text::put(out, at, &line(k));
    }
    at
}

fn lines(out: &mut [u8; 65536]) -> usize
    ensures counted { Counted result out.new }
    ensures value { (result ≡ length every_matrix) × (out.new ≡ every_matrix ++ drop result out.old) }
{
    put_lines(out)
}

fn main(rt: HostRuntime) -> io::Result<()> {
    let mut out = [0u8; 65536];
    let n = lines(&mut out);
    if rt.write_all(&out[..n]).is_err() {
        eprintln!(rt; "every_matrix: standard output cannot be written")?;
    }
    Ok(())
}
