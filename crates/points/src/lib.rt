// Rated points, wherever they stand.
#![tactic(auto)]

ghost use Rattle.std.specs.Prelude.{◌≡◌, List, [], map, ◌++◌, ◌+◌, ◌<◌, ◌≤◌, length, drop};
ghost use Rattle.model.specs.Answer.{gives, row, ◌then◌};
ghost use Rattle.model.specs.Points as model;
ghost use Rattle.model.specs.Points.{points as points_of_lists, point_at};
ghost use Rattle.model.specs.Check.{lengths_differ};
ghost use Rattle.refusal.specs.Refusal.{answer_at};
ghost use Rattle.point.specs.Inner.{point_of};
ghost use Rattle.points.specs.Inner.{Room};

use point::Point;
use refusal::Row;

// Points in some order, as document 01 speaks of them.
pub trait Points: Copy {
    ghost points: { Self → List model.Point };

    fn count(&self) -> usize
        ensures { result ≡ length (points self.now) };

    fn area(&self, i: usize) -> u32
        requires { i < length (points self.now) }
        ensures { result ≡ (point_at (points self.now) i).area };

    fn point(&self, i: usize) -> Point
        requires { i < length (points self.now) }
        ensures { point_of result ≡ point_at (points self.now) i };
}

// Row 1, of lists.
pub fn lengths_differ(areas: usize, values: usize, slopes: usize) -> bool
    ensures { result ≡ lengths_differ areas values slopes }
{
    areas != values || areas != slopes
}

// Three lists that are equally long.
#[derive(Clone, Copy)]
pub struct Lists<'a> {
    pub areas: &'a [u32],
    pub values: &'a [u32],
    pub slopes: &'a [i32],
    pub ghost values_too: { length areas.now ≡ length values.now },
    pub ghost slopes_too: { length areas.now ≡ length slopes.now },
}

impl<'a> Lists<'a> {
    pub fn new(areas: &'a [u32], values: &'a [u32], slopes: &'a [i32]) -> Result<Self, Row>
        ensures { answer_at 0 (λ l. points_of_lists l.areas.now l.values.now l.slopes.now) result
            ≡ (row (lengths_differ (length areas.now) (length values.now) (length slopes.now)) 1 0
            then gives (points_of_lists areas.now values.now slopes.now)) }
    {
        if lengths_differ(areas.len(), values.len(), slopes.len()) {
            return Err(Row::Count);
        }
        Ok(Lists {
            areas,
            values,
            slopes,
        })
    }
}

impl Points for Lists<'_> {
    ghost points = { λ l. points_of_lists l.areas.now l.values.now l.slopes.now };

    fn count(&self) -> usize {
        self.areas.len()
    }

    fn area(&self, i: usize) -> u32 {
        self.areas[i]
    }

    fn point(&self, i: usize) -> Point {
        Point {
            area: self.areas[i],
            value: self.values[i],
            slope: self.slopes[i],
        }
    }
}

impl Points for &[Point] {
    ghost points = { λ s. map point_of s.now };

    fn count(&self) -> usize {
        self.len()
    }

    fn area(&self, i: usize) -> u32 {
        self[i].area
    }

    fn point(&self, i: usize) -> Point {
        self[i]
    }
}

// Writes the points into the first entries of three lists, as document 01 has them lent.
pub fn fill<P: Points>(points: &P, areas: &mut [u32], values: &mut [u32], slopes: &mut [i32])
    requires { Room (length (P.points points.now)) (length areas.old) (length values.old) (length slopes.old) }
    ensures areas { areas.new
        ≡ map (λ p. p.area) (P.points points.now) ++ drop (length (P.points points.now)) areas.old }
    ensures values { values.new
        ≡ map (λ p. p.value) (P.points points.now) ++ drop (length (P.points points.now)) values.old }
    ensures slopes { slopes.new
        ≡ map (λ p. p.slope) (P.points points.now) ++ drop (length (P.points points.now)) slopes.old }
{
    for i in 0..points.count() {
        let p = points.point(i);
        areas[i] = p.area;
        values[i] = p.value;
        slopes[i] = p.slope;
    }
}
