// The curve file: its head and its points.
#![tactic(auto)]

ghost use Rattle.std.specs.Prelude.{◌≡◌, false, suc, ◌+◌, ◌<◌, ◌≤◌, length, OnOk};
ghost use Rattle.model.specs.Answer.{gives, ◌then◌};
ghost use Rattle.refusal.specs.Refusal.{answer_at};
ghost use Rattle.point.specs.Inner.{point_of};
ghost use Rattle.layout.specs.Layout.{point_offset, count, shape_code, twos_complement, little_endian, record_at, points_of};
ghost use Rattle.layout.specs.Head.{bad_head, head_rows};
ghost use Rattle.layout.specs.Inner.{first_points, Holds};

use point::Point;
use points::Points;
use refusal::Row;

// Bytes before the points, and of each point.
pub const HEAD_SIZE: usize = 7;

pub const RECORD_SIZE: usize = 12;

// The number of the 4 bytes from an offset on. (A slice of its own would need a fact of its length in place of the offset's.)
pub fn unsigned(bytes: &[u8], at: usize) -> u32
    requires { at + 4 ≤ length bytes.now }
    ensures { result ≡ little_endian bytes.now at 4 }
{
    u32::from_le_bytes([bytes[at], bytes[at + 1], bytes[at + 2], bytes[at + 3]])
}

// The signed number of these bytes.
fn signed(bytes: &[u8], at: usize) -> i32
    requires { at + 4 ≤ length bytes.now }
    ensures { result ≡ twos_complement (little_endian bytes.now at 4) }
{
    unsigned(bytes, at).cast_signed()
}

// The area of the point at i.
pub fn area_of(bytes: &[u8], i: usize) -> u32
    requires { Holds (suc i) (length bytes.now) }
    ensures { result ≡ (record_at bytes.now i).area }
{
    unsigned(bytes, HEAD_SIZE + RECORD_SIZE * i)
}

// The point at i.
pub fn record_at(bytes: &[u8], i: usize) -> Point
    requires { Holds (suc i) (length bytes.now) }
    ensures { point_of result ≡ record_at bytes.now i }
{
    let at = HEAD_SIZE + RECORD_SIZE * i;
    Point {
        area: unsigned(bytes, at),
        value: unsigned(bytes, at + 4),
        slope: signed(bytes, at + 8),
    }
}

// The first n points of bytes that hold them, whatever the head.
#[derive(Clone, Copy)]
pub struct Records<'a> {
    pub bytes: &'a [u8],
    pub n: usize,
    pub ghost holds: { Holds n (length bytes.now) },
}

impl Points for Records<'_> {
    ghost points = { λ r. first_points r.bytes.now r.n };

    fn count(&self) -> usize {
        self.n
    }

    fn area(&self, i: usize) -> u32 {
        area_of(self.bytes, i)
    }

    fn point(&self, i: usize) -> Point {
        record_at(self.bytes, i)
    }
}

// The letters TRF and the lower byte of version 1, as the number of 4 bytes: one test instead of four.
const MARK_AND_1: u32 = 0x146_5254;

// Row 9.
fn bad_head(bytes: &[u8]) -> bool
    ensures { result ≡ bad_head bytes.now }
{
    if bytes.len() < HEAD_SIZE {
        return true;
    }
    unsigned(bytes, 0) != MARK_AND_1 || bytes[4] != 0
}

// Rows 9 and 10. The result stays in a register, where one with the file in it would go through memory.
pub fn check(bytes: &[u8]) -> Result<(), Row>
    ensures answer { answer_at 0 (λ u. u) result ≡ head_rows bytes.now }
    ensures head { OnOk result (bad_head bytes.now ≡ false) }
    ensures size { OnOk result (length bytes.now ≡ point_offset (count bytes.now)) }
{
    if bad_head(bytes) {
        return Err(Row::Head);
    }
    if bytes.len() != HEAD_SIZE + RECORD_SIZE * usize::from(bytes[6]) {
        return Err(Row::Size);
    }
    Ok(())
}

// A file that rows 9 and 10 do not refuse. Where speed matters it is made after `check`, as the `Curve` of one is.
#[derive(Clone, Copy)]
pub struct CurveFile<'a> {
    pub bytes: &'a [u8],
    pub ghost head: { bad_head bytes.now ≡ false },
    pub ghost size: { length bytes.now ≡ point_offset (count bytes.now) },
}

impl<'a> CurveFile<'a> {
    pub fn new(bytes: &'a [u8]) -> Result<Self, Row>
        ensures { answer_at 0 (λ file. file.bytes.now) result ≡ (head_rows bytes.now then gives bytes.now) }
    {
        check(bytes)?;
        Ok(CurveFile { bytes })
    }

    // The shape code.
    pub fn code(&self) -> u32
        ensures { result ≡ shape_code self.now.bytes.now }
    {
        u32::from(self.bytes[5])
    }
}

impl Points for CurveFile<'_> {
    ghost points = { λ file. points_of file.bytes.now };

    fn count(&self) -> usize {
        usize::from(self.bytes[6])
    }

    fn area(&self, i: usize) -> u32 {
        area_of(self.bytes, i)
    }

    fn point(&self, i: usize) -> Point {
        record_at(self.bytes, i)
    }
}
