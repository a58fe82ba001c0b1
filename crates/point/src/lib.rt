// A rated point and its limits.
#![tactic(auto)]

ghost use Rattle.std.specs.Prelude.{◌≡◌, ℕ, ◌≤◌, [], ◌∷◌, IfSome};
ghost use Rattle.model.specs.Points.{area_most, mirror};
ghost use Rattle.model.specs.Check.{bad_area, point_rows};
ghost use Rattle.model.specs.Inner.{Limits};
ghost use Rattle.refusal.specs.Refusal.{answer_at};
ghost use Rattle.point.specs.Inner.{earlier, point_of};

use refusal::Row;

// The largest area, the largest distance from one area to the next, the largest value, the largest size of a slope.
pub const AREA_MOST: u32 = 20000;

pub const GAP_MOST: u32 = 2000;

pub const VALUE_MOST: u32 = 200000;

pub const SLOPE_MOST: i32 = 10000;

pub const SLOPE_LEAST: i32 = -SLOPE_MOST;

// Area in tenths of a square metre, value in units, slope in hundredths of a unit for each tenth.
#[derive(Clone, Copy, Debug, PartialEq, Eq)]
pub struct Point {
    pub area: u32,
    pub value: u32,
    pub slope: i32,
}

// Row 3. Before the first point there is no area. An area before is at most 20,000, so a difference that wraps is too large.
fn bad_area(before: Option<u32>, area: u32) -> bool
    requires { IfSome before (λ b. b ≤ area_most) }
    ensures { result ≡ bad_area (earlier before) area }
{
    if area > AREA_MOST {
        return true;
    }
    match before {
        None => false,
        Some(b) => area.wrapping_sub(b + 1) >= GAP_MOST,
    }
}

impl Point {
    // Rows 3, 4 and 5: the first that applies.
    pub fn check(self, before: Option<u32>) -> Result<(), Row>
        requires { IfSome before (λ b. b ≤ area_most) }
        ensures { (i : ℕ) → answer_at i (λ u. u) result ≡ point_rows i (earlier before) (point_of self ∷ []) }
    {
        if bad_area(before, self.area) {
            return Err(Row::Area);
        }
        if self.value > VALUE_MOST {
            return Err(Row::Value);
        }
        if self.slope < SLOPE_LEAST {
            return Err(Row::Slope);
        }
        if self.slope > SLOPE_MOST {
            return Err(Row::Slope);
        }
        Ok(())
    }

    // Document 02, item 4: 200,000 less the value, and the slope with its sign changed.
    pub fn mirror(self) -> Self
        requires { Limits (point_of self) }
        ensures { point_of result ≡ mirror (point_of self) }
    {
        Point {
            area: self.area,
            value: VALUE_MOST - self.value,
            slope: -self.slope,
        }
    }
}
