// The file of a curve, written into a lent buffer.
#![tactic(auto)]

ghost use Rattle.std.specs.Prelude.{◌≡◌, ◌+◌, ◌<◌, ◌≤◌, length};
ghost use Rattle.point.specs.Inner.{point_of};
ghost use Rattle.shape.specs.Codes.{code_of};
ghost use Rattle.layout.specs.Layout.{head_size, record_size, point_offset};
ghost use Rattle.encoding.specs.File.{record_bytes, head_bytes, file_bytes};
ghost use Rattle.encoding.specs.Inner.{put};

use layout::{HEAD_SIZE, RECORD_SIZE};
use point::Point;
use points::Points;
use shape::Shape;

// A point's record, from `at` on. (A slice of its own would need a fact of its length instead.)
fn put_point(out: &mut [u8], at: usize, p: Point)
    requires { at + record_size ≤ length out.old }
    ensures { out.new ≡ put at (record_bytes (point_of p)) out.old }
{
    let area = p.area.to_le_bytes();
    let value = p.value.to_le_bytes();
    let slope = p.slope.to_le_bytes();
    out[at..at + 4].copy_from_slice(&area);
    out[at + 4..at + 8].copy_from_slice(&value);
    out[at + 8..at + RECORD_SIZE].copy_from_slice(&slope);
}

// The letters TRF, version 1, the shape code and the count.
fn put_head(out: &mut [u8], code: u8, count: u8)
    requires { head_size ≤ length out.old }
    ensures { out.new ≡ put 0 (head_bytes code count) out.old }
{
    let head = [b'T', b'R', b'F', 1, 0, code, count];
    out[..HEAD_SIZE].copy_from_slice(&head);
}

// The file of the points, with the code of the shape.
pub fn encode<P: Points>(points: &P, shape: Shape, out: &mut [u8])
    requires count { length (P.points points.now) < 256 }
    requires room { point_offset (length (P.points points.now)) ≤ length out.old }
    ensures { out.new ≡ put 0 (file_bytes (P.points points.now) (code_of shape)) out.old }
{
    let count = points.count();
    put_head(out, shape.code() as u8, count as u8);
    for i in 0..count {
        put_point(out, HEAD_SIZE + RECORD_SIZE * i, points.point(i));
    }
}
