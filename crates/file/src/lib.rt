// Curve files.
#![tactic(auto)]

ghost use Rattle.std.specs.Prelude.{◌≡◌, map, length};
ghost use Rattle.model.specs.Answer.{filled};
ghost use Rattle.model.specs.Points.{points};
ghost use Rattle.model.specs.Check.{on_lists};
ghost use Rattle.refusal.specs.Refusal.{answer_of};
ghost use Rattle.layout.specs.Layout.{points_of};
ghost use Rattle.encoding.specs.File.{file_bytes};
ghost use Rattle.file.specs.Open.{short_list, open_answer};
ghost use Rattle.file.specs.Write.{write_answer};
ghost use Rattle.file.specs.Calls.{opened_answer, written_answer};
ghost use Rattle.file.specs.Inner.{head_of};

use layout::{CurveFile, HEAD_SIZE, RECORD_SIZE};
use points::Points;
use refusal::{Refusal, Row};
use rows::Curve;
use shape::Shape;

// Row 11.
#[tactic(auto, using(std::proofs::lemmas::Bool::Decides::nat_tests), unfolding(crate::specs::Open::short_list))]
pub fn short_list(n: usize, areas: usize, values: usize, slopes: usize) -> bool
    ensures { result ≡ short_list n areas values slopes }
{
    areas < n || values < n || slopes < n
}

// What Open answers: shape and count, or a refusal's number and place.
// Document 01 names this form: one enum for each call.
#[derive(Clone, Copy, Debug, PartialEq, Eq)]
pub enum Opened {
    Curve(Shape, u32),
    Refused(Row, u32),
}

fn read(
    bytes: &[u8],
    areas: &mut [u32],
    values: &mut [u32],
    slopes: &mut [i32],
) -> Result<(Shape, u32), Refusal>
    ensures answer { answer_of head_of result
        ≡ open_answer bytes.now
        (length areas.old) (length values.old) (length slopes.old) }
    ensures areas { areas.new
        ≡ filled (answer_of head_of result) (map (λ p. p.area) (points_of bytes.now)) areas.old }
    ensures values { values.new
        ≡ filled (answer_of head_of result) (map (λ p. p.value) (points_of bytes.now)) values.old }
    ensures slopes { slopes.new
        ≡ filled (answer_of head_of result) (map (λ p. p.slope) (points_of bytes.now)) slopes.old }
{
    layout::check(bytes)?;
    let file = CurveFile { bytes };
    let n = file.count();
    if short_list(n, areas.len(), values.len(), slopes.len()) {
        return Err(Row::Room.at(0));
    }
    let shape = rows::check(&file, file.code())?;
    points::fill(&file, areas, values, slopes);
    Ok((shape, n as u32))
}

// Document 01 names lent lists.
pub fn open(bytes: &[u8], areas: &mut [u32], values: &mut [u32], slopes: &mut [i32]) -> Opened
    ensures answer { opened_answer result
        ≡ open_answer bytes.now
        (length areas.old) (length values.old) (length slopes.old) }
    ensures areas { areas.new
        ≡ filled (opened_answer result) (map (λ p. p.area) (points_of bytes.now)) areas.old }
    ensures values { values.new
        ≡ filled (opened_answer result) (map (λ p. p.value) (points_of bytes.now)) values.old }
    ensures slopes { slopes.new
        ≡ filled (opened_answer result) (map (λ p. p.slope) (points_of bytes.now)) slopes.old }
{
    match read(bytes, areas, values, slopes) {
        Ok((shape, n)) => Opened::Curve(shape, n),
        Err(refusal) => Opened::Refused(refusal.row, refusal.place),
    }
}

// What Write answers: the length of the file, or a refusal's number and place.
// Document 01 names this form: one enum for each call.
#[derive(Clone, Copy, Debug, PartialEq, Eq)]
pub enum Written {
    Length(u32),
    Refused(Row, u32),
}

fn put(
    areas: &[u32],
    values: &[u32],
    slopes: &[i32],
    shape: u32,
    out: &mut [u8],
) -> Result<u32, Refusal>
    ensures answer { answer_of (λ n. n) result
        ≡ on_lists areas.now values.now slopes.now
        (λ ps. write_answer ps shape (length out.old)) }
    ensures out { out.new
        ≡ filled (answer_of (λ n. n) result)
        (file_bytes (points areas.now values.now slopes.now) shape) out.old }
{
    let curve = Curve::of_lists(areas, values, slopes, shape)?;
    let size = HEAD_SIZE + RECORD_SIZE * areas.len();
    if out.len() < size {
        return Err(Row::Buffer.at(0));
    }
    encoding::encode(&curve.points, curve.shape, out);
    Ok(size as u32)
}

// Document 01 names lent lists, and C gives the code as a number.
pub fn write(areas: &[u32], values: &[u32], slopes: &[i32], shape: u32, out: &mut [u8]) -> Written
    ensures answer { written_answer result
        ≡ on_lists areas.now values.now slopes.now
        (λ ps. write_answer ps shape (length out.old)) }
    ensures out { out.new
        ≡ filled (written_answer result)
        (file_bytes (points areas.now values.now slopes.now) shape) out.old }
{
    match put(areas, values, slopes, shape, out) {
        Ok(n) => Written::Length(n),
        Err(refusal) => Written::Refused(refusal.row, refusal.place),
    }
}
