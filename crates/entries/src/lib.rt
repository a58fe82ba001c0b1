// The entries of a sheet.
#![tactic(auto)]

ghost use Rattle.std.specs.Prelude.{◌≡◌, false, ℕ, ◌≤◌, ◌<◌, length};
ghost use Rattle.model.specs.Answer.{row, ◌then◌};
ghost use Rattle.model.specs.Points.{area_most};
ghost use Rattle.model.specs.Read.{reading};
ghost use Rattle.model.specs.Sheet.{bad_sheet, entry_area, entry_rows, tabulate};
ghost use Rattle.model.specs.Inner.{first_answer};
ghost use Rattle.refusal.specs.Refusal.{checked};
ghost use Rattle.shape.specs.Codes.{code_of};
ghost use Rattle.entries.specs.Inner.{AllInside, NextEntry, FilledUpTo};

use points::Points;
use refusal::{Refusal, Row};
use rows::Curve;
use segment::Facing;
use shape::Segment;

// The largest number of entries.
pub const ENTRIES_MOST: usize = 1024;

// The areas of the entries: start, start + step and so on.
#[derive(Clone, Copy)]
pub struct Steps {
    pub start: u32,
    pub step: u32,
}

impl Steps {
    // The area of an entry inside a curve.
    fn area(self, index: usize) -> u32
        requires { entry_area self.start self.step index ≤ area_most }
        ensures { result ≡ entry_area self.start self.step index }
    {
        (u64::from(self.start) + index as u64 * u64::from(self.step)) as u32
    }
}

// Row 8.
pub fn bad_sheet(step: u32, n: usize) -> bool
    ensures { result ≡ bad_sheet step n }
{
    step == 0 || n == 0 || n > ENTRIES_MOST
}

// The first entry whose area is outside the points. The areas increase, so a division finds it.
pub fn first_outside<P: Points>(points: &P, steps: Steps) -> usize
    requires points { 0 < length (P.points points.now) }
    requires step { 0 < steps.step }
    ensures { (n : ℕ) → first_answer 7 result n ≡ entry_rows (P.points points.now) steps.start steps.step n }
{
    if lookup::outside(points, steps.start) {
        return 0;
    }
    ((points.area(points.count() - 1) - steps.start) / steps.step) as usize + 1
}

// Row 8, then row 7 at the first entry outside.
pub fn check<P: Points>(points: &P, steps: Steps, n: usize) -> Result<(), Refusal>
    requires { 0 < length (P.points points.now) }
    ensures { checked result
        ≡ (row (bad_sheet steps.step n) 8 0
        then entry_rows (P.points points.now) steps.start steps.step n) }
{
    if bad_sheet(steps.step, n) {
        return Err(Row::Sheet.at(0));
    }
    // The count is the place of the refusal too: an Option would carry the same number.
    let inside = first_outside(points, steps);
    if inside < n {
        return Err(Row::Outside.at(inside as u32));
    }
    Ok(())
}

// Fills the entries from index on that take the segment at k, and gives the index after them, where the next segment goes on.
fn fill_segment<P: Points>(
    curve: &Curve<P>,
    k: usize,
    steps: Steps,
    index: usize,
    out: &mut [i32],
) -> usize
    requires { NextEntry (P.points curve.now.points) k steps.start steps.step index (length out.old) }
    ensures { FilledUpTo
        (λ i. reading (P.points curve.now.points) (code_of curve.now.shape) (entry_area steps.start steps.step i))
        (P.points curve.now.points) k steps.start steps.step index result out.old out.new }
{
    let segment = Segment {
        left: curve.points.point(k),
        right: curve.points.point(k + 1),
    };
    let facing = Facing::new(curve.shape, segment);
    for i in index..out.len() {
        let area = steps.area(i);
        if !lookup::takes(&curve.points, k, area) {
            return i;
        }
        out[i] = facing.factor(area);
    }
    out.len()
}

// The factor at each entry's area, segment by segment, from the first that the next entry takes.
pub fn fill<P: Points>(curve: &Curve<P>, steps: Steps, out: &mut [i32])
    requires { AllInside (P.points curve.now.points) steps.start steps.step (length out.old) }
    ensures { out.new ≡ tabulate
        (λ i. reading (P.points curve.now.points) (code_of curve.now.shape) (entry_area steps.start steps.step i))
        0 (length out.old) }
{
    let mut k = 0;
    let mut index = 0;
    while index < out.len() {
        k = lookup::find(&curve.points, k, steps.area(index));
        index = fill_segment(curve, k, steps, index, out);
    }
}
