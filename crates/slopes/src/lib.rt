// Slopes that nobody supplies, by the harmonic rule.
#![tactic(auto)]

ghost use Rattle.std.specs.Prelude.{◌≡◌, ℕ, ◌++◌, ◌+◌, ◌-◌, ◌<◌, pos, length, drop, OnOk, nat_lt};
ghost use Rattle.model.specs.Answer.{gives, row, ◌then◌, filled, row_at_each};
ghost use Rattle.model.specs.Points.{slope_most};
ghost use Rattle.refusal.specs.Refusal.{answer_of, checked};
ghost use Rattle.harmonic.specs.Rule.{figure, figures};
ghost use Rattle.harmonic.specs.Fill.{too_steep, fill_answer};
ghost use Rattle.harmonic.specs.Inner.{zero_slope_points, Climbing, Sized, ChordAt};
ghost use Rattle.slopes.specs.Calls.{supplied_answer};
ghost use Rattle.slopes.specs.Inner.{chord_of, figure_between, figure_at_end};

use point::{Point, SLOPE_MOST};
use points::Points;
use refusal::{Refusal, Row};
use rows::{Curve, POINTS_MOST};
use shape::Shape;

// A chord, by its rise and the gap that it spans.
#[derive(Clone, Copy)]
struct Chord {
    rise: u64,
    gap: u64,
    ghost sized: { Sized (chord_of rise gap) },
}

impl Chord {
    // The figure between this chord and the next.
    fn inner_figure(self, next: Chord) -> u64
        ensures { pos result ≡ figure_between (chord_of self.rise self.gap) (chord_of next.rise next.gap) }
    {
        let rises = self.rise * next.rise;
        if rises == 0 {
            return 0;
        }
        rises * (self.gap + next.gap) * 100 / (self.gap * next.gap * (self.rise + next.rise))
    }

    // The figure at the end where this chord is, of it and the one beside it.
    fn end_figure(self, beside: Chord) -> u64
        ensures { pos result ≡ figure_at_end (chord_of self.rise self.gap) (chord_of beside.rise beside.gap) }
    {
        if self.rise == 0 {
            return 0;
        }
        if beside.rise == 0 {
            return 2 * self.rise * 100 / self.gap;
        }
        self.rise * (self.rise + beside.rise) * beside.gap * 100
            / (self.gap * (self.gap + beside.gap) * beside.rise)
    }
}

// Row 5 of the figure at a place. Before it a figure can be above 2^32.
fn slope_at(place: u32, figure: u64) -> Result<i32, Refusal>
    ensures { answer_of (λ s. s) result ≡ (row (nat_lt slope_most figure) 5 place then gives (pos figure)) }
{
    if figure > SLOPE_MOST as u64 {
        return Err(Row::Slope.at(place));
    }
    Ok(figure as i32)
}

// As many areas as values: points whose slopes are all 0. (`Lists` would need a list of zeros, which is slower.)
#[derive(Clone, Copy)]
struct Rated<'a> {
    areas: &'a [u32],
    values: &'a [u32],
    ghost values_too: { length areas.now ≡ length values.now },
}

impl Points for Rated<'_> {
    ghost points = { λ r. zero_slope_points r.areas.now r.values.now };

    fn count(&self) -> usize {
        self.areas.len()
    }

    fn area(&self, i: usize) -> u32 {
        self.areas[i]
    }

    fn point(&self, i: usize) -> Point {
        Point {
            area: self.areas[i],
            value: self.values[i],
            slope: 0,
        }
    }
}

// Areas and values that rows 1, 3, 4 and 6 do not refuse.
#[derive(Clone, Copy)]
struct Rising<'a> {
    areas: &'a [u32],
    values: &'a [u32],
    ghost climbing: { Climbing areas.now values.now },
}

impl Rising<'_> {
    // The chord from the point at i to the next.
    fn chord(&self, i: usize) -> Chord
        requires { i + 1 < length self.now.areas.now }
        ensures { ChordAt self.now.areas.now self.now.values.now i (chord_of result.rise result.gap) }
    {
        Chord {
            rise: u64::from(self.values[i + 1] - self.values[i]),
            gap: u64::from(self.areas[i + 1] - self.areas[i]),
        }
    }

    // The figure at the first point.
    fn first_figure(&self) -> u64
        ensures { pos result ≡ figure self.now.areas.now self.now.values.now 0 }
    {
        let own = self.chord(0);
        if self.areas.len() == 2 {
            return own.rise * 100 / own.gap;
        }
        own.end_figure(self.chord(1))
    }

    // The figure at the last point: of two points, that at the first.
    fn last_figure(&self, first: u64) -> u64
        requires { pos first ≡ figure self.now.areas.now self.now.values.now 0 }
        ensures { pos result ≡ figure self.now.areas.now self.now.values.now (length self.now.areas.now - 1) }
    {
        let n = self.areas.len();
        if n == 2 {
            return first;
        }
        self.chord(n - 2).end_figure(self.chord(n - 3))
    }

    // Fills the first entries with figures, up to the first that row 5 refuses.
    fn fill_figures(&self, out: &mut [i32; POINTS_MOST]) -> Result<(), Refusal>
        ensures answer { checked result
            ≡ row_at_each (too_steep self.now.areas.now self.now.values.now) 5 0 (length self.now.areas.now) }
        ensures list { OnOk result (out.new ≡ figures self.now.areas.now self.now.values.now
            ++ drop (length self.now.areas.now) out.old) }
    {
        let end = self.areas.len() - 1;
        let first = self.first_figure();
        out[0] = slope_at(0, first)?;
        let mut left = self.chord(0);
        for i in 1..end {
            let right = self.chord(i);
            out[i] = slope_at(i as u32, left.inner_figure(right))?;
            left = right;
        }
        out[end] = slope_at(end as u32, self.last_figure(first))?;
        Ok(())
    }
}

// Rows 1, 3, 4 and 6 are those of a rising curve whose slopes are 0; then row 5 of the figures. The list is written last. The
// result is the number of points.
fn supply(areas: &[u32], values: &[u32], slopes: &mut [i32]) -> Result<u32, Refusal>
    ensures answer { answer_of (λ n. n) result ≡ fill_answer areas.now values.now (length slopes.old) }
    ensures slopes { slopes.new
        ≡ filled (answer_of {B = ℕ} (λ n. n) result) (figures areas.now values.now) slopes.old }
{
    let n = areas.len();
    if points::lengths_differ(n, values.len(), slopes.len()) {
        return Err(Row::Count.at(0));
    }
    Curve::new(Rated { areas, values }, Shape::Rising.code())?;
    let rising = Rising { areas, values };
    // No heap: as many as a curve can have.
    let mut figures = [0i32; POINTS_MOST];
    rising.fill_figures(&mut figures)?;
    slopes.copy_from_slice(&figures[..n]);
    Ok(n as u32)
}

// What the filling answers: the number of points, or a refusal and its place.
// Document 01 names this form: one enum for each call.
#[derive(Clone, Copy, Debug, PartialEq, Eq)]
pub enum Supplied {
    Points(u32),
    Refused(Row, u32),
}

// Document 01 names lent lists.
pub fn fill_slopes(areas: &[u32], values: &[u32], slopes: &mut [i32]) -> Supplied
    ensures answer { supplied_answer result
        ≡ fill_answer areas.now values.now (length slopes.old) }
    ensures slopes { slopes.new
        ≡ filled (supplied_answer result) (figures areas.now values.now) slopes.old }
{
    match supply(areas, values, slopes) {
        Ok(n) => Supplied::Points(n),
        Err(refusal) => Supplied::Refused(refusal.row, refusal.place),
    }
}
