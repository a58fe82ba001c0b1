// Shapes, segments, and whether a segment has its shape: rows 2 and 6.
#![tactic(auto)]

ghost use Rattle.std.specs.Prelude.{◌≡◌, ◌&&◌, pos};
ghost use Rattle.std.specs.Int.Signed.{le_z};
ghost use Rattle.model.specs.Answer.{gives, row, ◌then◌};
ghost use Rattle.model.specs.Points.{rising, mirror_segment, rule_of};
ghost use Rattle.model.specs.Shape.{has_shape, segment_test};
ghost use Rattle.model.specs.Check.{bad_code};
ghost use Rattle.model.specs.Inner.{Neighbours};
ghost use Rattle.refusal.specs.Refusal.{answer_at};
ghost use Rattle.point.specs.Inner.{segment_of};
ghost use Rattle.shape.specs.Codes.{code_of};
ghost use Rattle.shape.specs.Inner.{SlopesOver, in_order};

use point::Point;
use refusal::Row;

// A shape's code is its value.
#[derive(Clone, Copy, Debug, PartialEq, Eq)]
pub enum Shape {
    Rising = 1,
    Convex,
    Falling,
    Concave,
}

impl Shape {
    pub fn code(self) -> u32
        ensures { result ≡ code_of self }
    {
        self as u32
    }

    // The shape by whose rule any code is tested and read. (Row 2 refuses 0 and those above 4.)
    #[tactic(auto, unfolding(model::specs::Points::rule_of, model::specs::Points::shape_of))]
    pub fn by_rule(code: u32) -> Self
        ensures { rule_of (code_of result) ≡ rule_of code }
    {
        match code {
            0 | 2 => Shape::Convex,
            1 => Shape::Rising,
            3 => Shape::Falling,
            _ => Shape::Concave,
        }
    }
}

// Row 2.
impl TryFrom<u32> for Shape {
    type Error = Row;

    ghost try_from_gives = { λ code r. answer_at 0 code_of r ≡ (row (bad_code code) 2 0 then gives code) };

    #[tactic(auto, using(crate::proofs::Codes::row_then), unfolding(model::specs::Check::bad_code))]
    fn try_from(code: u32) -> Result<Self, Row> {
        match code {
            1 => Ok(Shape::Rising),
            2 => Ok(Shape::Convex),
            3 => Ok(Shape::Falling),
            4 => Ok(Shape::Concave),
            _ => Err(Row::Code),
        }
    }
}

// The slopes of a segment over the denominator 100 h: left end, chord, right end, in the order of (3.22).
#[derive(Clone, Copy)]
pub struct Slopes {
    pub left: i32,
    pub chord: i32,
    pub right: i32,
}

// Two neighbouring points that rows 3 to 5 do not refuse.
#[derive(Clone, Copy)]
pub struct Segment {
    pub left: Point,
    pub right: Point,
    pub ghost neighbours: { Neighbours (segment_of left right) },
}

// Neither slope is below 0. As numbers of their own the two are tested by one branch.
fn not_below_0(d0: i32, d1: i32) -> bool
    ensures { result ≡ (le_z (pos 0) d0 && le_z (pos 0) d1) }
{
    if d0 < 0 {
        return false;
    }
    d1 >= 0
}

// Shape 2: d_i < Δ_i < d_{i+1}, as the report's (TR/10/83) (3.22) has it for one segment; or all three are equal.
fn bends(left: i32, chord: i32, right: i32) -> bool
    ensures { result ≡ in_order left chord right }
{
    if left < chord {
        return chord < right;
    }
    if left != chord {
        return false;
    }
    chord == right
}

impl Segment {
    pub fn slopes(self) -> Slopes
        ensures { SlopesOver (segment_of self.left self.right) result }
    {
        let h = (self.right.area - self.left.area) as i32;
        let rise = (self.right.value as i32) - (self.left.value as i32);
        let left = h * self.left.slope;
        let chord = 100 * rise;
        let right = h * self.right.slope;
        Slopes { left, chord, right }
    }

    // Both points mirrored.
    pub fn mirror(self) -> Self
        ensures { segment_of result.left result.right ≡ mirror_segment (segment_of self.left self.right) }
    {
        Segment {
            left: self.left.mirror(),
            right: self.right.mirror(),
        }
    }

    // Upside down between its own two values: it rises where the mirrored points do, and the compiler has no value to take from
    // 200,000.
    fn flipped(self) -> Self
        ensures { has_shape rising (segment_of result.left result.right)
            ≡ has_shape rising (mirror_segment (segment_of self.left self.right)) }
    {
        Segment {
            left: Point {
                area: self.left.area,
                value: self.right.value,
                slope: -self.left.slope,
            },
            right: Point {
                area: self.right.area,
                value: self.left.value,
                slope: -self.right.slope,
            },
        }
    }

    // Shape 1.
    fn rises(self) -> bool
        ensures { result ≡ has_shape rising (segment_of self.left self.right) }
    {
        if self.left.value < self.right.value {
            return not_below_0(self.left.slope, self.right.slope);
        }
        if self.left.value != self.right.value {
            return false;
        }
        self.left.slope == 0 && self.right.slope == 0
    }

    // Row 6 is passed. A file brings the shape, so a `match` chooses by it. The slopes of a mirrored segment are those here with
    // their signs changed, so their order is that here from right to left.
    pub fn has_shape(self, shape: Shape) -> bool
        ensures { result ≡ segment_test (rule_of (code_of shape)) (segment_of self.left self.right) }
    {
        match shape {
            Shape::Rising => self.rises(),
            Shape::Convex => {
                let e = self.slopes();
                bends(e.left, e.chord, e.right)
            }
            Shape::Falling => self.flipped().rises(),
            Shape::Concave => {
                let e = self.slopes();
                bends(e.right, e.chord, e.left)
            }
        }
    }
}

// Row 6 is passed, by the rule of any code.
pub fn segment_test(code: u32, p: Point, q: Point) -> bool
    requires { Neighbours (segment_of p q) }
    ensures { result ≡ segment_test (rule_of code) (segment_of p q) }
{
    Segment { left: p, right: q }.has_shape(Shape::by_rule(code))
}
