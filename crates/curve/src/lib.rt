// Factor curves through rated points.
#![tactic(auto)]

ghost use Rattle.std.specs.Prelude.{◌≡◌, length};
ghost use Rattle.model.specs.Answer.{gives, row, ◌then◌};
ghost use Rattle.model.specs.Points.{points};
ghost use Rattle.model.specs.Check.{check_answer, on_lists};
ghost use Rattle.model.specs.Read.{read_answer};
ghost use Rattle.model.specs.Sheet.{sheet_answer, sheet_list};
ghost use Rattle.refusal.specs.Refusal.{answer_of};
ghost use Rattle.curve.specs.Calls.{checked_answer, reading_answer, filled_answer, InRange};

use entries::Steps;
use refusal::{Refusal, Row};
use rows::Curve;

// What Check answers: the number of segments, or a refusal's number and place.
// Document 01 names this form: one enum for each call.
#[derive(Clone, Copy, Debug, PartialEq, Eq)]
pub enum Checked {
    Segments(u32),
    Refused(Row, u32),
}

// Document 01 names lent lists, and C gives the code as a number.
pub fn check(areas: &[u32], values: &[u32], slopes: &[i32], shape: u32) -> Checked
    ensures { checked_answer result
        ≡ on_lists areas.now values.now slopes.now (λ ps. check_answer ps shape) }
{
    match Curve::of_lists(areas, values, slopes, shape) {
        Ok(_) => Checked::Segments((areas.len() - 1) as u32),
        Err(refusal) => Checked::Refused(refusal.row, refusal.place),
    }
}

// What Read answers: the factor, or a refusal's number and place.
// Document 01 names this form: one enum for each call.
#[derive(Clone, Copy, Debug, PartialEq, Eq)]
pub enum Reading {
    Factor(i32),
    Refused(Row, u32),
}

fn factor(
    areas: &[u32],
    values: &[u32],
    slopes: &[i32],
    shape: u32,
    area: u32,
) -> Result<i32, Refusal>
    ensures { answer_of (λ f. f) result
        ≡ on_lists areas.now values.now slopes.now (λ ps. read_answer ps shape area) }
{
    let curve = Curve::lists_to_read(areas, values, slopes, shape)?;
    Ok(lookup::read(&curve, area)?)
}

pub fn read(areas: &[u32], values: &[u32], slopes: &[i32], shape: u32, area: u32) -> Reading
    ensures answer { reading_answer result
        ≡ on_lists areas.now values.now slopes.now (λ ps. read_answer ps shape area) }
    ensures range { InRange (reading_answer result) }
{
    match factor(areas, values, slopes, shape, area) {
        Ok(f) => Reading::Factor(f),
        Err(refusal) => Reading::Refused(refusal.row, refusal.place),
    }
}

// What Sheet answers: the number of entries, or a refusal's number and place.
// Document 01 names this form: one enum for each call.
#[derive(Clone, Copy, Debug, PartialEq, Eq)]
pub enum Filled {
    Entries(u32),
    Refused(Row, u32),
}

#[tactic(auto, using(lookup::proofs::Areas::least))]
fn fill(
    areas: &[u32],
    values: &[u32],
    slopes: &[i32],
    shape: u32,
    start: u32,
    step: u32,
    out: &mut [i32],
) -> Result<u32, Refusal>
    ensures answer { answer_of (λ n. n) result
        ≡ on_lists areas.now values.now slopes.now
        (λ ps. sheet_answer ps shape start step (length out.old)) }
    ensures list { out.new
        ≡ sheet_list (points areas.now values.now slopes.now) shape start step
        (answer_of (λ n. n) result) out.old }
{
    let curve = Curve::lists_to_read(areas, values, slopes, shape)?;
    let steps = Steps { start, step };
    entries::check(&curve.points, steps, out.len())?;
    entries::fill(&curve, steps, out);
    Ok(out.len() as u32)
}

pub fn sheet(
    areas: &[u32],
    values: &[u32],
    slopes: &[i32],
    shape: u32,
    start: u32,
    step: u32,
    out: &mut [i32],
) -> Filled
    ensures answer { filled_answer result
        ≡ on_lists areas.now values.now slopes.now
        (λ ps. sheet_answer ps shape start step (length out.old)) }
    ensures list { out.new
        ≡ sheet_list (points areas.now values.now slopes.now) shape start step
        (filled_answer result) out.old }
{
    match fill(areas, values, slopes, shape, start, step, out) {
        Ok(n) => Filled::Entries(n),
        Err(refusal) => Filled::Refused(refusal.row, refusal.place),
    }
}
