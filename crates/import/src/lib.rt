// Points from the statistics package.
#![tactic(auto)]

ghost use Rattle.std.specs.Prelude.{◌≡◌, false, map, length};
ghost use Rattle.model.specs.Answer.{filled, gives, ◌then◌};
ghost use Rattle.model.specs.Check.{bad_count};
ghost use Rattle.points.specs.Inner.{Room};
ghost use Rattle.file.specs.Open.{short_list};
ghost use Rattle.triples.specs.Triples.{count, exported, export_rows};
ghost use Rattle.refusal.specs.Refusal.{answer_of};
ghost use Rattle.import.specs.Import.{points_of, import_answer};
ghost use Rattle.import.specs.Calls.{imported_answer};

use refusal::{Refusal, Row};
use rows::POINTS_MOST;
use shape::Shape;
use triples::Triples;

// What Import answers: the count, or a refusal's row and place.
// Document 01 names this form: one enum for each call.
#[derive(Clone, Copy, Debug, PartialEq, Eq)]
pub enum Imported {
    Points(u32),
    Refused(Row, u32),
}

// Up to so many points shorter lists are made.
const FEW: usize = 8;

// Rows 1 to 6 and 14; the points go into lists of our own and, if none refuses, from there into the lent lists. Not inlined:
// twice in place, the curve would go through memory.
#[inline(never)]
fn put(
    export: Triples,
    code: u32,
    own_areas: &mut [u32],
    own_values: &mut [u32],
    own_slopes: &mut [i32],
    areas: &mut [u32],
    values: &mut [u32],
    slopes: &mut [i32],
) -> Result<u32, Refusal>
    requires own { bad_count (count export.bytes.now) ≡ false
        → Room (count export.bytes.now) (length own_areas.old) (length own_values.old) (length own_slopes.old) }
    requires lent { short_list (count export.bytes.now) (length areas.old) (length values.old) (length slopes.old) ≡ false }
    ensures answer { answer_of (λ n. n) result
        ≡ (export_rows (exported export.entry.bytes.now) code then gives (count export.entry.bytes.now)) }
    ensures areas { areas.new
        ≡ filled (answer_of (λ n. n) result) (map (λ p. p.area) (points_of export.entry.bytes.now)) areas.old }
    ensures values { values.new
        ≡ filled (answer_of (λ n. n) result) (map (λ p. p.value) (points_of export.entry.bytes.now)) values.old }
    ensures slopes { slopes.new
        ≡ filled (answer_of (λ n. n) result) (map (λ p. p.slope) (points_of export.entry.bytes.now)) slopes.old }
{
    let curve = export.curve_in_lists(code, own_areas, own_values, own_slopes)?;
    points::fill(&curve.points, areas, values, slopes);
    Ok(export.count() as u32)
}

fn take(
    bytes: &[u8],
    code: u32,
    areas: &mut [u32],
    values: &mut [u32],
    slopes: &mut [i32],
) -> Result<u32, Refusal>
    ensures answer { answer_of (λ n. n) result
        ≡ import_answer bytes.now code
        (length areas.old) (length values.old) (length slopes.old) }
    ensures areas { areas.new
        ≡ filled (answer_of (λ n. n) result) (map (λ p. p.area) (points_of bytes.now)) areas.old }
    ensures values { values.new
        ≡ filled (answer_of (λ n. n) result) (map (λ p. p.value) (points_of bytes.now)) values.old }
    ensures slopes { slopes.new
        ≡ filled (answer_of (λ n. n) result) (map (λ p. p.slope) (points_of bytes.now)) slopes.old }
{
    let export = Triples::new(bytes)?;
    let n = export.count();
    if file::short_list(n, areas.len(), values.len(), slopes.len()) {
        return Err(Row::Room.at(0));
    }
    // Rows 1 and 2 before the lists are made and the points are decoded.
    if rows::bad_count(n) {
        return Err(Row::Count.at(0));
    }
    Shape::try_from(code)?;
    // No heap: lists of as many points as a curve can have. (One list of points would be cleared by a call of memset.)
    if n <= FEW {
        put(
            export,
            code,
            &mut [0; FEW],
            &mut [0; FEW],
            &mut [0; FEW],
            areas,
            values,
            slopes,
        )
    } else {
        put(
            export,
            code,
            &mut [0; POINTS_MOST],
            &mut [0; POINTS_MOST],
            &mut [0; POINTS_MOST],
            areas,
            values,
            slopes,
        )
    }
}

// Document 01 names lent lists, and C gives the code as a number.
pub fn import(
    bytes: &[u8],
    code: u32,
    areas: &mut [u32],
    values: &mut [u32],
    slopes: &mut [i32],
) -> Imported
    ensures answer { imported_answer result
        ≡ import_answer bytes.now code
        (length areas.old) (length values.old) (length slopes.old) }
    ensures areas { areas.new
        ≡ filled (imported_answer result) (map (λ p. p.area) (points_of bytes.now)) areas.old }
    ensures values { values.new
        ≡ filled (imported_answer result) (map (λ p. p.value) (points_of bytes.now)) values.old }
    ensures slopes { slopes.new
        ≡ filled (imported_answer result) (map (λ p. p.slope) (points_of bytes.now)) slopes.old }
{
    match take(bytes, code, areas, values, slopes) {
        Ok(n) => Imported::Points(n),
        Err(refusal) => Imported::Refused(refusal.row, refusal.place),
    }
}
