// Fields that several kinds have.
ghost use Rattle.std.specs.Prelude.{◌≡◌, [], ◌∷◌, ◌+◌};
ghost use Rattle.components.specs.Codes.{kind_code};
ghost use Rattle.layout.specs.Offsets.{body_length, across_in};
ghost use Rattle.layout.specs.Table.{field, record_kind_field, record_stated_field};
ghost use Rattle.put.specs.Put.{put_at};
ghost use Rattle.values.specs.Values.{bits_of, present};
ghost use Rattle.encoder.specs.Encoded.{fields_put};

use crate::Place;
use components::{Kind, Point};
use layout::record;
use put::put;

// A double in 64 bits.
pub fn put_double(s: &mut [u8], at: u32, off: u32, x: f64)
    ensures { s.new ≡ put_at s.old (at + off) 64 (bits_of x) }
{
    put(s, at, off, 64, double_bits::bits_of(x));
}

// A position in 64 bits, and a second coordinate in some.
pub fn put_point(s: &mut [u8], place: Place, along: u32, across: u32, p: Point)
    ensures { s.new ≡ fields_put s.old place.at (field along 64 ∷ field across place.across ∷ [])
        (bits_of p.along ∷ bits_of p.across ∷ []) }
{
    let at = place.at;
    let bits = place.across as usize;
    put_double(s, at, along, p.along);
    put(s, at, across, bits, double_bits::bits_of(p.across));
}

// An optional id: its present bit, and the id.
pub fn put_optional(s: &mut [u8], at: u32, has: u32, off: u32, id: u32)
    ensures { s.new ≡ fields_put s.old at (field has 1 ∷ field off 32 ∷ []) (present id ∷ id ∷ []) }
{
    put(s, at, has, 1, u64::from(id != 0));
    put(s, at, off, 32, id as u64);
}

// What stands before the body: the kind, and the body's length.
pub fn put_front(s: &mut [u8], place: Place, kind: Kind)
    ensures { s.new ≡ fields_put s.old place.at (record_kind_field ∷ record_stated_field ∷ [])
        (kind_code kind ∷ (body_length kind + across_in place.across kind) ∷ []) }
{
    let at = place.at;
    put(s, at, record::KIND, 6, u64::from(kind));
    put(
        s,
        at,
        record::STATED,
        16,
        layout::body_length(kind, place.across),
    );
}
