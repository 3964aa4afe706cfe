// A field that a host asks to be put: whether it can hold its number, and whether it lies in the sheet.
ghost use Rattle.std.specs.Prelude.{◌≡◌};
ghost use Rattle.writer_host.specs.Host.{holds_number, field_refusal, answered};

use crate::answer::Refused;
use writer::PutError;

// Whether a field of w bits holds v.
fn holds_number(w: u32, v: u64) -> bool
    ensures { result ≡ holds_number w v }
{
    if 64 < w {
        return false;
    }
    if w == 64 {
        return true;
    }
    v >> w == 0
}

// 8 where the w bits from bit at do not hold v, 2 where they pass the end of so many bytes.
pub fn check(bytes: usize, at: u32, w: u32, v: u64) -> Result<(), Refused>
    ensures { answered result ≡ field_refusal bytes at w v }
{
    if !holds_number(w, v) {
        return Err(Refused::Value);
    }
    let end = at as usize + w as usize;
    if bytes < (end + 7) >> 3 {
        return Err(Refused::Put(PutError::NoRoom));
    }
    Ok(())
}
