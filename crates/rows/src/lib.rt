// Accepted curves: rows 1 to 6 of the refusal table, of points wherever they stand.
#![tactic(auto)]

ghost use Rattle.std.specs.Prelude.{◌≡◌, true, ℕ, length, ◌≤◌, IfSome, IfOk, OnOk};
ghost use Rattle.std.proofs.Math.Option.{none};
ghost use Rattle.model.specs.Answer.{gives, ◌then◌};
ghost use Rattle.model.specs.Points.{points as points_of_lists, points_most, segments, between, convex, rule_of};
ghost use Rattle.model.specs.Shape.{has_shape};
ghost use Rattle.model.specs.Check.{bad_count, point_rows, segment_rows, curve_rows, on_lists};
ghost use Rattle.model.specs.Read.{all_convex, used_code};
ghost use Rattle.model.specs.Inner.{Limits, Neighbours};
ghost use Rattle.refusal.specs.Refusal.{answer_of, checked};
ghost use Rattle.point.specs.Inner.{point_of};
ghost use Rattle.shape.specs.Codes.{code_of};
ghost use Rattle.rows.specs.Inner.{Count, Limited, Follows, Passing, Run, accepts};

use point::Point;
use points::{Lists, Points};
use refusal::{Refusal, Row};
use shape::{Segment, Shape};

// A curve has 2 to 64 points.
pub const POINTS_LEAST: usize = 2;

pub const POINTS_MOST: usize = 64;

// Row 1, of points.
pub fn bad_count(n: usize) -> bool
    ensures { result ≡ bad_count n }
{
    n < POINTS_LEAST || n > POINTS_MOST
}

// Rows 3 to 6 of the second of two points and of the segment between them.
// (Two points are a `Segment` only once rows 3 to 5 have passed the second.)
pub fn follows(shape: Shape, p: Point, q: Point) -> bool
    requires { Limits (point_of p) }
    ensures { result ≡ true → Follows (rule_of (code_of shape)) (point_of p) (point_of q) }
{
    if q.check(Some(p.area)).is_err() {
        return false;
    }
    Segment { left: p, right: q }.has_shape(shape)
}

// The same, by the rule of any code.
pub fn follows_of_code(code: u32, p: Point, q: Point) -> bool
    requires { Limits (point_of p) }
    ensures { result ≡ true → Follows (rule_of code) (point_of p) (point_of q) }
{
    follows(Shape::by_rule(code), p, q)
}

// The convex test of the segment of two neighbouring points.
fn bends(p: Point, q: Point) -> bool
    requires { Neighbours (between (point_of p) (point_of q)) }
    ensures { result ≡ has_shape convex (between (point_of p) (point_of q)) }
{
    Segment { left: p, right: q }.has_shape(Shape::Convex)
}

// Rows 3 to 6 in one pass, from a point on up to which they are passed. Where it finds a fault it does not say which.
#[inline(always)]
fn rest_passes<P: Points>(points: &P, shape: Shape, from: usize) -> bool
    requires count { Count (length (P.points points.now)) }
    requires passing { Passing (P.points points.now) (code_of shape) from }
    ensures { result ≡ true → accepts (P.points points.now) (code_of shape) ≡ true }
{
    for i in from..points.count() - 1 {
        if !follows(shape, points.point(i), points.point(i + 1)) {
            return false;
        }
    }
    true
}

// Rows 3 to 6 in one pass.
#[inline(always)]
fn all_pass<P: Points>(points: &P, shape: Shape) -> bool
    requires { Count (length (P.points points.now)) }
    ensures { result ≡ true → accepts (P.points points.now) (code_of shape) ≡ true }
{
    if points.point(0).check(None).is_err() {
        return false;
    }
    rest_passes(points, shape, 0)
}

// The same, with a loop for each shape. (A file brings the shape, so something must choose by it.)
fn passes<P: Points>(points: &P, shape: Shape) -> bool
    requires { Count (length (P.points points.now)) }
    ensures { result ≡ true → accepts (P.points points.now) (code_of shape) ≡ true }
{
    match shape {
        Shape::Rising => all_pass(points, Shape::Rising),
        Shape::Convex => all_pass(points, Shape::Convex),
        Shape::Falling => all_pass(points, Shape::Falling),
        Shape::Concave => all_pass(points, Shape::Concave),
    }
}

// Rows 3, 4 and 5: the first bad point.
// Document 01 names a loop left by `break` with what it found.
pub fn check_points<P: Points>(points: &P) -> Result<(), Refusal>
    requires { length (P.points points.now) ≤ points_most }
    ensures { checked result ≡ point_rows 0 none (P.points points.now) }
{
    let mut found = Ok(());
    let mut before = None;
    for i in 0..points.count() {
        let p = points.point(i);
        if let Err(row) = p.check(before) {
            found = Err(row.at(i as u32));
            break;
        }
        before = Some(p.area);
    }
    found
}

// Row 6: the first segment without its shape, at its left point.
fn check_segments<P: Points>(points: &P, shape: Shape) -> Result<(), Refusal>
    requires { Limited (P.points points.now) }
    ensures { checked result ≡ segment_rows 0 (rule_of (code_of shape)) (segments (P.points points.now)) }
{
    for left in 0..points.count() - 1 {
        let segment = Segment {
            left: points.point(left),
            right: points.point(left + 1),
        };
        let shaped = segment.has_shape(shape);
        if !shaped {
            return Err(Row::Segment.at(left as u32));
        }
    }
    Ok(())
}

// Rows 1 to 6, one after the other. Apart from the pass and not inlined, since the loops of the pass would hold what it needs.
#[inline(never)]
fn first_refusal<P: Points>(points: &P, code: u32) -> Result<Shape, Refusal>
    ensures { answer_of code_of result ≡ (curve_rows (P.points points.now) code then gives code) }
{
    if bad_count(points.count()) {
        return Err(Row::Count.at(0));
    }
    let shape = Shape::try_from(code)?;
    check_points(points)?;
    check_segments(points, shape)?;
    Ok(shape)
}

// Rows 1 to 6, 3 to 6 in one pass: the shape of an accepted curve. None does not say which row refuses.
fn accepted<P: Points>(points: &P, code: u32) -> Option<Shape>
    ensures { IfSome result (λ shape. (code_of shape ≡ code) × (accepts (P.points points.now) code ≡ true)) }
{
    if bad_count(points.count()) {
        return None;
    }
    let Ok(shape) = Shape::try_from(code) else {
        return None;
    };
    if !passes(points, shape) {
        return None;
    }
    Some(shape)
}

// Rows 1 to 6: an accepted curve is passed over once. The result is its shape.
pub fn check<P: Points>(points: &P, code: u32) -> Result<Shape, Refusal>
    ensures answer { answer_of code_of result ≡ (curve_rows (P.points points.now) code then gives code) }
    ensures accepted { IfOk result (λ shape. accepts (P.points points.now) (code_of shape) ≡ true) }
{
    match accepted(points, code) {
        Some(shape) => Ok(shape),
        None => first_refusal(points, code),
    }
}

// ---- the rule used (document 02, item 8)

// Whether every segment passes the convex test.
fn all_convex<P: Points>(points: &P) -> bool
    requires { Limited (P.points points.now) }
    ensures { result ≡ all_convex (segments (P.points points.now)) }
{
    check_segments(points, Shape::Convex).is_ok()
}

// The shape by which an accepted curve is read.
pub fn used_shape<P: Points>(points: &P, shape: Shape) -> Shape
    requires { accepts (P.points points.now) (code_of shape) ≡ true }
    ensures code { code_of result ≡ used_code (P.points points.now) (code_of shape) }
    ensures accepted { accepts (P.points points.now) (code_of result) ≡ true }
{
    let convex_first = match shape {
        Shape::Rising => all_convex(points),
        Shape::Convex | Shape::Falling | Shape::Concave => false,
    };
    if convex_first {
        return Shape::Convex;
    }
    shape
}

// How far the points pass and the segments are convex, from a first slope of 0 or more on. Then they rise too: section 3.3 of
// the report (TR/10/83).
#[inline(always)]
fn convex_run<P: Points>(points: &P) -> Option<usize>
    requires { Count (length (P.points points.now)) }
    ensures { IfSome result (λ i. Run (P.points points.now) i) }
{
    let first = points.point(0);
    if first.check(None).is_err() || first.slope < 0 {
        return None;
    }
    let last = points.count() - 1;
    for i in 0..last {
        if !follows(Shape::Convex, points.point(i), points.point(i + 1)) {
            return Some(i);
        }
    }
    Some(last)
}

// The shape by which a rising curve is read, from one pass: the convex test as far as it goes, the rising test from there on.
// None does not say why. (The run ends at a segment that is not convex; since `follows` does not say so, that one is tested
// again.) Not inlined: among the other passes its loops have too few registers.
#[inline(never)]
fn rising_pass<P: Points>(points: &P) -> Option<Shape>
    requires { Count (length (P.points points.now)) }
    ensures { IfSome result (λ shape. (accepts (P.points points.now) 1 ≡ true)
        × (code_of shape ≡ used_code (P.points points.now) 1)) }
{
    let run = convex_run(points)?;
    if run == points.count() - 1 {
        return Some(Shape::Convex);
    }
    if !rest_passes(points, Shape::Rising, run) || bends(points.point(run), points.point(run + 1)) {
        return None;
    }
    Some(Shape::Rising)
}

// Rows 1 to 6, and the shape by which an accepted curve is read.
pub fn check_to_read<P: Points>(points: &P, code: u32) -> Result<Shape, Refusal>
    ensures answer { answer_of code_of result
        ≡ (curve_rows (P.points points.now) code then gives (used_code (P.points points.now) code)) }
    ensures accepted { IfOk result (λ shape. accepts (P.points points.now) (code_of shape) ≡ true) }
{
    if code == Shape::Rising.code() && !bad_count(points.count()) {
        if let Some(shape) = rising_pass(points) {
            return Ok(shape);
        }
    }
    let shape = check(points, code)?;
    Ok(used_shape(points, shape))
}

// ---- curves

// Points that rows 1 to 6 do not refuse, and their shape. The desk readings make it of a shape that they are given: a result that
// holds the points of a file goes through memory.
#[derive(Drop)]
pub struct Curve<P: Points> {
    pub points: P,
    pub shape: Shape,
    pub ghost accepted: { accepts (P.points points) (code_of shape) ≡ true },
}

impl<P: Points> Curve<P> {
    pub fn new(points: P, code: u32) -> Result<Self, Refusal>
        ensures { answer_of {B = P × ℕ} (λ c. (c.points, code_of c.shape)) result
            ≡ (curve_rows (P.points points) code then gives (points, code)) }
    {
        let shape = check(&points, code)?;
        Ok(Curve { points, shape })
    }
}

impl<'a> Curve<Lists<'a>> {
    // The same of three lists, as document 01 has them lent.
    pub fn of_lists(
        areas: &'a [u32],
        values: &'a [u32],
        slopes: &'a [i32],
        code: u32,
    ) -> Result<Self, Refusal>
        ensures answer { answer_of (λ c. code_of c.shape) result
            ≡ on_lists areas.now values.now slopes.now (λ ps. curve_rows ps code then gives code) }
        ensures points { IfOk result (λ c. points_of_lists c.points.areas.now c.points.values.now c.points.slopes.now
            ≡ points_of_lists areas.now values.now slopes.now) }
    {
        Curve::new(Lists::new(areas, values, slopes)?, code)
    }

    // The same, under the code by whose rule it is read.
    pub fn lists_to_read(
        areas: &'a [u32],
        values: &'a [u32],
        slopes: &'a [i32],
        code: u32,
    ) -> Result<Self, Refusal>
        ensures answer { answer_of (λ c. code_of c.shape) result
            ≡ on_lists areas.now values.now slopes.now (λ ps. curve_rows ps code then gives (used_code ps code)) }
        ensures points { IfOk result (λ c. points_of_lists c.points.areas.now c.points.values.now c.points.slopes.now
            ≡ points_of_lists areas.now values.now slopes.now) }
    {
        let points = Lists::new(areas, values, slopes)?;
        let shape = check_to_read(&points, code)?;
        Ok(Curve { points, shape })
    }
}
