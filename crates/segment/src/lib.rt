// The factor at an area of one segment, by one division other than by constants.
#![tactic(auto)]

ghost use Rattle.std.specs.Prelude.{◌≡◌, true, pos, nat_abs, ◌+ℤ◌, ◌*ℤ◌, ◌+◌, ◌*◌, ◌≤◌, IfSome};
ghost use Rattle.segment.specs.Inner as inner;
ghost use Rattle.segment.specs.Inner.{Weights, RisingInput, rising_value, BentAt, BentInput, Excess, Large, Around};
ghost use Rattle.segment.specs.Inner.{SumInput, hundredths_of, About, HalfWay, as_filed};
ghost use Rattle.exact.specs.Fraction.{Fraction, ◌over◌};
ghost use Rattle.exact.specs.Rounding.{floor_div, round};
ghost use Rattle.exact.specs.Inner.{sticky};
ghost use Rattle.model.specs.Points.{rising, convex, plain, rule_of};
ghost use Rattle.model.specs.Interpolant.{interpolant, exact_curve};
ghost use Rattle.model.specs.Inner.{Good, Inside};
ghost use Rattle.point.specs.Inner.{segment_of};
ghost use Rattle.shape.specs.Codes.{code_of};

use exact::Quotient;
use point::{Point, VALUE_MOST};
use shape::{Segment, Shape};

// ---- rising

// t (g t + e u)
fn part(t: u64, u: u64, g: u64, e: u64) -> u64
    requires { Weights t u g e }
    ensures { result ≡ inner.part t u g e }
{
    t * (g * t + e * u)
}

// The value on a rising curve, rounded. t and u are the distances from the two ends, d0 and d1 the slopes in hundredths. With one
// half added it is rounded down, but where that leaves nothing: there may be a tie.
fn rising(t: u64, u: u64, left: u64, rise: u64, d0: u64, d1: u64) -> i32
    requires { RisingInput t u left rise d0 d1 }
    ensures { result ≡ round (rising_value t u left rise d0 d1) }
{
    let h = t + u;
    let g = 100 * rise;
    let a = part(t, u, g, h * d0);
    let b = a + part(u, t, g, h * d1);
    let n = a * rise + b / 2;
    let k = (left + n / b) as i32;
    let rest_left = n % b != 0;
    if rest_left {
        return k;
    }
    exact::nearest(k - 1, b - b / 2, b)
}

// u is taken as h - t, so that the compiler sees that t + u is h for every area.
fn rising_factor(s: Segment, area: u32) -> i32
    requires { Inside (Good (plain rising)) (segment_of s.left s.right) area }
    ensures { result ≡ round (interpolant rising (segment_of s.left s.right) area) }
{
    if s.right.value == s.left.value {
        return s.left.value as i32;
    }
    let t = u64::from(area - s.left.area);
    let u = u64::from(s.right.area - s.left.area) - t;
    let rise = u64::from(s.right.value - s.left.value);
    let d0 = s.left.slope as u64;
    let d1 = s.right.slope as u64;
    rising(t, u, u64::from(s.left.value), rise, d0, d1)
}

// ---- convex

// An area of such a segment: t and u are its distances from the two ends, h their sum; a and b are the end slopes' distances from
// the chord, over 100 h.
#[derive(Clone, Copy)]
struct Bent {
    t: u64,
    u: u64,
    h: u64,
    a: u64,
    b: u64,
    ghost sizes: { BentInput t u h a b },
}

// A product b h from here on, the largest w of a segment, is large: w w may pass 64 bits. b h is asked, and not w, so that all
// areas of a segment take one branch.
const LARGE: u64 = 0x1_0000_0000;

impl Bent {
    // `Inside` is of a segment and an area together, so it is asked here and below, and is no ghost field of one of them.
    fn at(s: Segment, area: u32) -> Self
        requires { Inside (Good (plain convex)) (segment_of s.left s.right) area }
        ensures { BentAt (segment_of s.left s.right) area result.t result.u result.h result.a result.b }
    {
        let e = s.slopes();
        let a = (e.right - e.chord) as u64;
        let b = (e.chord - e.left) as u64;
        Bent {
            t: u64::from(area - s.left.area),
            u: u64::from(s.right.area - area),
            h: u64::from(s.right.area - s.left.area),
            a,
            b,
        }
    }

    // How far the curve is above its left tangent, in hundredths: w w / (W h) with w = b t and W = a u + w. Where h divides it is
    // t + u: the compiler would test at each area whether an h that is the same for all of them is 0.
    fn excess(self) -> Quotient
        ensures { Excess self.t self.u self.h self.a self.b result.q result.r }
    {
        let w = self.b * self.t;
        if w == 0 {
            return Quotient { q: 0, r: 0 };
        }
        let c = (self.a * self.u + w) * (self.t + self.u);
        if self.b * self.h < LARGE {
            let n = w * w;
            return Quotient { q: n / c, r: n % c };
        }
        exact::share_by(w, w, c, 0x1000)
    }

    // Whether w w may pass 64 bits, and is not 0.
    fn is_large(self) -> bool
        ensures { result ≡ true → Large self.t self.h self.b }
    {
        self.t != 0 && self.b * self.h >= LARGE
    }

    // That quotient from leading bits, by a division of smaller numbers: less than one off.
    fn leading(self) -> u64
        requires { Large self.t self.h self.b }
        ensures { Around (self.b * self.t * (self.b * self.t)) ((self.a * self.u + self.b * self.t) * self.h) result }
    {
        let w = self.b * self.t;
        let v = w / 32;
        v * v / ((self.a * self.u + w) * self.h / 1024 + 1) + 1
    }
}

// The left value, the left tangent and what is above it, in whole hundredths.
fn hundredths(left: u32, slope: i32, t: u64, above: u64) -> i32
    requires { SumInput left slope t above }
    ensures { result ≡ hundredths_of (pos left) slope t above }
{
    let from = 100 * left;
    (i64::from(from) + i64::from(slope) * (t as i64) + (above as i64)) as i32
}

// What is less than one hundredth off n hundredths, in units, rounded. All of that is rounded alike unless n ends in 50: there it
// is None.
fn nearly(n: i32) -> Option<i32>
    requires { nat_abs n ≤ 90000000 }
    ensures sure { IfSome result (λ k. (v : Fraction) → About n v → round v ≡ k) }
    ensures tie { result ≡ None → HalfWay n (floor_div (n +ℤ pos 50) 100) }
{
    let k = exact::floor_div(n + 50, 100);
    let tie = n + 50 == 100 * k;
    if tie {
        return None;
    }
    Some(k)
}

// Whether a division left anything, as a digit.
fn digit(r: u64) -> u64
    ensures { result ≡ sticky r }
{
    let rest_left = r != 0;
    u64::from(rest_left)
}

// n hundredths in units, rounded; r is what is left of a hundredth more, which decides where n ends in 50.
fn units(n: i32, r: u64) -> i32
    requires { nat_abs n ≤ 90000000 }
    ensures { result ≡ round ((pos 2 *ℤ n +ℤ pos (sticky r)) over pos 200) }
{
    if let Some(k) = nearly(n) {
        return k;
    }
    exact::nearest(exact::floor_div(n + 50, 100) - 1, 100 + digit(r), 200)
}

// Where w w may pass 64 bits, the leading bits decide as a rule.
fn large_factor(s: Segment, area: u32) -> i32
    requires { Inside (Good (plain convex)) (segment_of s.left s.right) area }
    ensures { result ≡ round (interpolant convex (segment_of s.left s.right) area) }
{
    let x = Bent::at(s, area);
    if x.is_large() {
        if let Some(k) = nearly(hundredths(s.left.value, s.left.slope, x.t, x.leading())) {
            return k;
        }
    }
    let e = x.excess();
    units(hundredths(s.left.value, s.left.slope, x.t, e.q), e.r)
}

fn convex_factor(s: Segment, area: u32) -> i32
    requires { Inside (Good (plain convex)) (segment_of s.left s.right) area }
    ensures { result ≡ round (interpolant convex (segment_of s.left s.right) area) }
{
    let x = Bent::at(s, area);
    if x.b * x.h >= LARGE {
        return large_factor(s, area);
    }
    let e = x.excess();
    units(hundredths(s.left.value, s.left.slope, x.t, e.q), e.r)
}

// ---- the factor

// A segment as its shape reads it: the points as they stand, or mirrored. Made once for all areas of a segment, so that the
// compiler makes one branch of it and no choice for each number.
#[derive(Clone, Copy)]
pub struct Facing {
    pub shape: Shape,
    pub segment: Segment,
}

impl Facing {
    pub fn new(shape: Shape, s: Segment) -> Self
        ensures shape { result.shape ≡ shape }
        ensures segment { as_filed shape (segment_of result.segment.left result.segment.right) ≡ segment_of s.left s.right }
    {
        let segment = match shape {
            Shape::Rising | Shape::Convex => s,
            Shape::Falling | Shape::Concave => s.mirror(),
        };
        Facing { shape, segment }
    }

    // The factor at an area. Of shapes 3 and 4 it is 200,000 less that of 1 and 2 on mirrored points: 200,000 is even.
    pub fn factor(self, area: u32) -> i32
        requires { Inside (Good (rule_of (code_of self.shape)))
            (as_filed self.shape (segment_of self.segment.left self.segment.right)) area }
        ensures { result
            ≡ round (exact_curve (rule_of (code_of self.shape))
            (as_filed self.shape (segment_of self.segment.left self.segment.right)) area) }
    {
        let f = match self.shape {
            Shape::Rising | Shape::Falling => rising_factor(self.segment, area),
            Shape::Convex | Shape::Concave => convex_factor(self.segment, area),
        };
        match self.shape {
            Shape::Rising | Shape::Convex => f,
            Shape::Falling | Shape::Concave => VALUE_MOST as i32 - f,
        }
    }
}

// The factor at an area of a segment that has its shape.
pub fn factor(shape: Shape, s: Segment, area: u32) -> i32
    requires { Inside (Good (rule_of (code_of shape))) (segment_of s.left s.right) area }
    ensures { result ≡ round (exact_curve (rule_of (code_of shape)) (segment_of s.left s.right) area) }
{
    Facing::new(shape, s).factor(area)
}

// The same of two points, by the rule of any code.
pub fn factor_of_code(code: u32, p: Point, q: Point, area: u32) -> i32
    requires { Inside (Good (rule_of code)) (segment_of p q) area }
    ensures { result ≡ round (exact_curve (rule_of code) (segment_of p q) area) }
{
    factor(Shape::by_rule(code), Segment { left: p, right: q }, area)
}
