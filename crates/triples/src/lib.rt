// The statistics package's points: triples of binary64 figures.
#![tactic(auto)]

ghost use Rattle.std.specs.Prelude.{◌≡◌, false, map, ◌+◌, ◌<◌, ◌≤◌, length, take};
ghost use Rattle.model.specs.Answer.{gives, row, ◌then◌};
ghost use Rattle.model.specs.Points.{points as points_of_lists};
ghost use Rattle.model.specs.Check.{bad_count};
ghost use Rattle.refusal.specs.Refusal.{answer_at, answer_of};
ghost use Rattle.point.specs.Inner.{point_of};
ghost use Rattle.points.specs.Inner.{Room};
ghost use Rattle.triples.specs.Triples.{bad_length, figure_at, triple_at, count, taken, exported, point_from, export_rows};
ghost use Rattle.triples.specs.Inner.{triple_of, taken_point, ranged, whole_points};

use point::Point;
use points::{Lists, Points};
use refusal::{Refusal, Row};
use rows::{Curve, POINTS_MOST};
use shape::Shape;

// Bytes of each point.
pub const TRIPLE_SIZE: usize = 24;

// The figure of the 8 bytes from an offset on, the lowest first. (A slice of its own would need a fact of its length instead.)
fn figure(bytes: &[u8], at: usize) -> f64
    requires { at + 8 ≤ length bytes.now }
    ensures { result ≡ figure_at bytes.now at }
{
    let bits = u64::from_le_bytes([
        bytes[at],
        bytes[at + 1],
        bytes[at + 2],
        bytes[at + 3],
        bytes[at + 4],
        bytes[at + 5],
        bytes[at + 6],
        bytes[at + 7],
    ]);
    binary64::from_pattern(bits)
}

// The figures of a point, of whatever value.
#[derive(Clone, Copy)]
pub struct Triple {
    pub area: f64,
    pub value: f64,
    pub slope: f64,
}

impl Triple {
    // The point, if its figures are whole. Each figure is tested whole before it is cast. Those that 32 bits do not hold, and
    // areas and values below 0, become others that are beyond the limits too.
    #[inline(always)]
    fn point(self) -> Option<Point>
        ensures { taken_point result ≡ ranged (taken (triple_of self)) }
    {
        let area = binary64::whole_number(self.area)?;
        let value = binary64::whole_number(self.value)?;
        let slope = binary64::whole_number(self.slope)?;
        Some(Point {
            area: area.cast_unsigned(),
            value: value.cast_unsigned(),
            slope,
        })
    }
}

// The first n entries of three lists.
fn first<'a>(n: usize, areas: &'a [u32], values: &'a [u32], slopes: &'a [i32]) -> Lists<'a>
    requires { Room n (length areas.now) (length values.now) (length slopes.now) }
    ensures { points_of_lists result.areas.now result.values.now result.slopes.now
        ≡ points_of_lists (take n areas.now) (take n values.now) (take n slopes.now) }
{
    Lists {
        areas: &areas[..n],
        values: &values[..n],
        slopes: &slopes[..n],
    }
}

// Points, written into the first entries of a list.
fn listed<'p, P: Points>(from: &P, points: &'p mut [Point]) -> &'p [Point]
    requires { length (P.points from.now) ≤ length points.old }
    ensures { map point_of result.now ≡ P.points from.now }
{
    let n = from.count();
    for i in 0..n {
        points[i] = from.point(i);
    }
    &points[..n]
}

// An export: points with no header.
#[derive(Clone, Copy)]
pub struct Triples<'a> {
    pub bytes: &'a [u8],
    pub ghost multiple: { bad_length bytes.now ≡ false },
}

impl<'a> Triples<'a> {
    // Row 13.
    pub fn new(bytes: &'a [u8]) -> Result<Self, Row>
        ensures { answer_at 0 (λ t. t.bytes.now) result ≡ (row (bad_length bytes.now) 13 0 then gives bytes.now) }
    {
        let cut_short = bytes.len() % TRIPLE_SIZE != 0;
        if cut_short {
            return Err(Row::Triples);
        }
        Ok(Triples { bytes })
    }

    pub fn count(&self) -> usize
        ensures { result ≡ count self.now.bytes.now }
    {
        self.bytes.len() / TRIPLE_SIZE
    }

    // The triple at i.
    fn triple(&self, i: usize) -> Triple
        requires { i < count self.now.bytes.now }
        ensures { triple_of result ≡ triple_at self.now.bytes.now i }
    {
        let at = TRIPLE_SIZE * i;
        Triple {
            area: figure(self.bytes, at),
            value: figure(self.bytes, at + 8),
            slope: figure(self.bytes, at + 16),
        }
    }

    // The points before the first with row 14, which are written into the lists.
    fn decode<'p>(
        &self,
        areas: &'p mut [u32],
        values: &'p mut [u32],
        slopes: &'p mut [i32],
    ) -> Lists<'p>
        requires { Room (count self.now.bytes.now) (length areas.old) (length values.old) (length slopes.old) }
        ensures { points_of_lists result.areas.now result.values.now result.slopes.now
            ≡ whole_points (exported self.now.bytes.now) }
    {
        let n = self.count();
        for i in 0..n {
            let Some(p) = self.triple(i).point() else {
                return first(i, areas, values, slopes);
            };
            areas[i] = p.area;
            values[i] = p.value;
            slopes[i] = p.slope;
        }
        first(n, areas, values, slopes)
    }

    // Rows 1 to 6 and 14. The points are written into the lists.
    pub fn curve_in_lists<'p>(
        &self,
        code: u32,
        areas: &'p mut [u32],
        values: &'p mut [u32],
        slopes: &'p mut [i32],
    ) -> Result<Curve<Lists<'p>>, Refusal>
        requires room { bad_count (count self.now.bytes.now) ≡ false
            → Room (count self.now.bytes.now) (length areas.old) (length values.old) (length slopes.old) }
        ensures { answer_of (λ c. points_of_lists c.points.areas.now c.points.values.now c.points.slopes.now) result
            ≡ (export_rows (exported self.now.bytes.now) code
            then gives (map point_from (exported self.now.bytes.now))) }
    {
        let n = self.count();
        if rows::bad_count(n) {
            return Err(Row::Count.at(0));
        }
        let whole = self.decode(areas, values, slopes);
        // Shorter lists say where the first is that is not whole.
        if whole.count() == n {
            return Curve::new(whole, code);
        }
        Shape::try_from(code)?;
        let earlier = rows::check_points(&whole);
        earlier?;
        Err(Row::Whole.at(whole.count() as u32))
    }

    // The same; the points are written into one list.
    #[tactic(auto, using(crate::proofs::OneList::room_of_row_1))]
    pub fn curve<'p>(
        &self,
        code: u32,
        points: &'p mut [Point],
    ) -> Result<Curve<&'p [Point]>, Refusal>
        requires room { bad_count (count self.now.bytes.now) ≡ false → count self.now.bytes.now ≤ length points.old }
        ensures { answer_of (λ curve. map point_of curve.points.now) result
            ≡ (export_rows (exported self.now.bytes.now) code
            then gives (map point_from (exported self.now.bytes.now))) }
    {
        // No heap: lists of as many points as a curve can have.
        let mut areas = [0; POINTS_MOST];
        let mut values = [0; POINTS_MOST];
        let mut slopes = [0; POINTS_MOST];
        let curve = self.curve_in_lists(code, &mut areas, &mut values, &mut slopes)?;
        Ok(Curve {
            points: listed(&curve.points, points),
            shape: curve.shape,
        })
    }
}

#[cfg(test)]
mod tests {
    use super::*;

    // 500, 10000, 0 and 600, 14000, 10000, as Python's struct.pack("<6d", ..) writes them.
    const TWO_POINTS: [u8; 48] = [
        0, 0, 0, 0, 0, 64, 127, 64, 0, 0, 0, 0, 0, 136, 195, 64, 0, 0, 0, 0, 0, 0, 0, 0, //
        0, 0, 0, 0, 0, 192, 130, 64, 0, 0, 0, 0, 0, 88, 203, 64, 0, 0, 0, 0, 0, 136, 195, 64,
    ];

    const ORIGIN: Point = Point {
        area: 0,
        value: 0,
        slope: 0,
    };

    #[test]
    fn points_in_one_list(rt: HostRuntime) {
        let mut points = [ORIGIN; 3];
        let export = Triples::new(&TWO_POINTS).expect(&rt, "48 bytes");
        assert_eq!(rt; export.count(), 2);
        let curve = export
            .curve(1, &mut points)
            .expect(&rt, "an accepted curve");
        assert_eq!(rt; curve.shape, Shape::Rising);
        assert_eq!(rt; curve.points.len(), 2);
        assert_eq!(rt;
            curve.points[0],
            Point {
                area: 500,
                value: 10000,
                slope: 0
            }
        );
        assert_eq!(rt;
            curve.points[1],
            Point {
                area: 600,
                value: 14000,
                slope: 10000
            }
        );
    }

    #[test]
    fn half_refused_by_14(rt: HostRuntime) {
        let mut points = [ORIGIN; 2];
        let mut bytes = TWO_POINTS;
        // The second area, 600, becomes 0.5.
        bytes[29] = 0;
        bytes[30] = 224;
        bytes[31] = 63;
        let export = Triples::new(&bytes).expect(&rt, "48 bytes");
        assert_eq!(rt; export.count(), 2);
        let refusal = export.curve(1, &mut points).err();
        assert_eq!(rt; refusal, Some(Row::Whole.at(1)));
    }
}
