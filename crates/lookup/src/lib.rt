// Readings of an accepted curve: row 7, the segment that an area takes, the factor there.
#![tactic(auto)]

ghost use Rattle.std.specs.Prelude.{◌≡◌, false, ◌<◌, ◌≤◌, length};
ghost use Rattle.model.specs.Answer.{gives, row, ◌then◌};
ghost use Rattle.model.specs.Points.{points_most};
ghost use Rattle.model.specs.Read.{outside as lies_outside, segment_read, reading};
ghost use Rattle.model.specs.Inner.{areas_of, Reached, Taken, Strides, LastOf};
ghost use Rattle.refusal.specs.Refusal.{answer_at};
ghost use Rattle.shape.specs.Codes.{code_of};
ghost use Rattle.lookup.specs.Inner.{TakesResult};

use points::Points;
use refusal::Row;
use rows::Curve;
use shape::Segment;

// Row 7.
pub fn outside<P: Points>(points: &P, area: u32) -> bool
    requires { 0 < length (P.points points.now) }
    ensures { result ≡ lies_outside (P.points points.now) area }
{
    area < points.area(0) || points.area(points.count() - 1) < area
}

// Whether an area takes the segment at i, whose left area is not above it. (`Reached` is of an area and an index together, here
// and below, so it is no ghost field of one of them.)
pub fn takes<P: Points>(points: &P, i: usize, area: u32) -> bool
    requires { Reached (areas_of (P.points points.now)) i area }
    ensures { TakesResult (areas_of (P.points points.now)) i area result }
{
    points.count() - i == 2 || area < points.area(i + 1)
}

// The index of the left point of the segment that an area takes, from an index whose area is not above it.
pub fn find<P: Points>(points: &P, from: usize, area: u32) -> usize
    requires { Reached (areas_of (P.points points.now)) from area }
    ensures { Taken (areas_of (P.points points.now)) result area }
{
    let last = points.count() - 2;
    for i in from..last {
        if takes(points, i, area) {
            return i;
        }
    }
    last
}

// From an area that is not above the area read, the last of every step-th before `end` that is not. All of them are looked at, so
// that no branch depends on the area read; the indices have 32 bits, so that the compiler looks at four at a time.
fn last_not_above<P: Points>(points: &P, from: u32, step: u32, end: u32, area: u32) -> u32
    requires strides { Strides (length (P.points points.now)) from step end }
    requires reached { Reached (areas_of (P.points points.now)) from area }
    ensures { LastOf (areas_of (P.points points.now)) result step end area }
{
    let mut last = from;
    for i in (from + step..end).step_by(step as usize) {
        if points.area(i as usize) <= area {
            last = i;
        }
    }
    last
}

// The index of the left point of the segment that an area takes: among every eighth point, then among those from there on.
pub fn search<P: Points>(points: &P, area: u32) -> usize
    requires most { length (P.points points.now) ≤ points_most }
    requires reached { Reached (areas_of (P.points points.now)) 0 area }
    ensures { Taken (areas_of (P.points points.now)) result area }
{
    if points.count() == 2 {
        return 0;
    }
    let last = (points.count() - 1) as u32;
    let from = last_not_above(points, 0, 8, last, area);
    let end = last.min(from + 8);
    last_not_above(points, from, 1, end, area) as usize
}

// Row 7; then the index of the segment read.
pub fn locate<P: Points>(curve: &Curve<P>, area: u32) -> Result<usize, Row>
    ensures { answer_at 0 (λ i. i) result
        ≡ (row (lies_outside (P.points curve.now.points) area) 7 0
        then gives (segment_read (P.points curve.now.points) area)) }
{
    if outside(&curve.points, area) {
        return Err(Row::Outside);
    }
    Ok(search(&curve.points, area))
}

// The factor at an area, from the index of the segment read.
pub fn factor_at<P: Points>(curve: &Curve<P>, i: usize, area: u32) -> i32
    requires inside { lies_outside (P.points curve.now.points) area ≡ false }
    requires index { i ≡ segment_read (P.points curve.now.points) area }
    ensures { result ≡ reading (P.points curve.now.points) (code_of curve.now.shape) area }
{
    let segment = Segment {
        left: curve.points.point(i),
        right: curve.points.point(i + 1),
    };
    segment::factor(curve.shape, segment, area)
}

// The factor at an area inside the curve.
pub fn factor<P: Points>(curve: &Curve<P>, area: u32) -> i32
    requires { lies_outside (P.points curve.now.points) area ≡ false }
    ensures { result ≡ reading (P.points curve.now.points) (code_of curve.now.shape) area }
{
    factor_at(curve, search(&curve.points, area), area)
}

// Row 7; then the factor.
pub fn read<P: Points>(curve: &Curve<P>, area: u32) -> Result<i32, Row>
    ensures { answer_at 0 (λ f. f) result
        ≡ (row (lies_outside (P.points curve.now.points) area) 7 0
        then gives (reading (P.points curve.now.points) (code_of curve.now.shape) area)) }
{
    let i = locate(curve, area)?;
    Ok(factor_at(curve, i, area))
}
