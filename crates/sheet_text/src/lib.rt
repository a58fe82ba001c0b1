// What is printed for a curve file.
#![tactic(auto)]

ghost use Rattle.std.specs.Prelude.{◌≡◌, ◌++◌, ◌+◌, ◌≤◌, length, IfOk};
ghost use Rattle.arrayvec.specs.ArrayString.{array_string_len};
ghost use Rattle.refusal.specs.Refusal.{answer_of};
ghost use Rattle.shape.specs.Codes.{code_of};
ghost use Rattle.layout.specs.Layout.{count, points_of};
ghost use Rattle.sheet_text.specs.SheetText.{words_line, head_line, entry_line, sheet_lines, file_answer, sheet_text};

use arrayvec::ArrayString;
use layout::CurveFile;
use points::Points;
use refusal::{Refusal, Row};
use rows::Curve;
use text::{decimal, signed};

// From one area of the sheet to the next, and the most entries with that step.
const STEP: u32 = 25;

const ENTRIES_MOST: usize = (point::AREA_MOST / STEP) as usize + 1;

// The most bytes that the file of an accepted curve has.
pub const FILE_MOST: usize = layout::HEAD_SIZE + layout::RECORD_SIZE * rows::POINTS_MOST;

// Enough for the text of every file: a first line, and a line for each entry.
pub const TEXT_MOST: usize = 35 + 23 * ENTRIES_MOST;

// No heap.
pub type Text = ArrayString<TEXT_MOST>;

// The text becomes a line of two words, each with its number. (`write!` would say what it writes only where it succeeds.)
fn words_line(text: &mut Text, first: &str, a: u32, second: &str, b: u32)
    requires { length first.now + length second.now ≤ 14 }
    ensures line { text.new.bytes ≡ words_line first.now a second.now b }
    ensures short { array_string_len text.new ≤ 35 }
{
    text.clear();
    text.push_str(first);
    text.push_str(&decimal(a));
    text.push_str(second);
    text.push_str(&decimal(b));
    text.push('\n');
}

// The line of an area and its factor.
fn entry_line(area: u32, factor: i32) -> ArrayString<23>
    ensures { result.bytes ≡ entry_line area factor }
{
    let mut line = ArrayString::new();
    line.push_str(&decimal(area));
    line.push(' ');
    line.push_str(&signed(factor));
    line.push('\n');
    line
}

// The sheet of an accepted curve: a line for each area from the first point's on, in steps, up to the last point's.
fn sheet(curve: &Curve<CurveFile<'_>>, text: &mut Text)
    ensures { text.new.bytes ≡ head_line (code_of curve.now.shape) (count curve.now.points.bytes.now)
        ++ sheet_lines (points_of curve.now.points.bytes.now) (code_of curve.now.shape) }
{
    let Curve { points, shape } = *curve;
    let n = points.count();
    let first = points.area(0);
    let last = points.area(n - 1);
    words_line(text, "shape ", shape.code(), " points ", n as u32);
    let read = Curve {
        points,
        shape: rows::used_shape(&points, shape),
    };
    for area in (first..=last).step_by(STEP as usize) {
        text.push_str(&entry_line(area, lookup::factor(&read, area)));
    }
}

// The rows of Open, and row 10 for a file of more bytes than 64 points take.
fn accept(bytes: &[u8]) -> Result<Curve<CurveFile<'_>>, Refusal>
    ensures answer { answer_of (λ curve. record { shape = code_of curve.shape; count = count bytes.now }) result
        ≡ file_answer bytes.now }
    ensures file { IfOk result (λ curve. curve.points.bytes.now ≡ bytes.now) }
{
    let file = CurveFile::new(bytes)?;
    if bytes.len() > FILE_MOST {
        return Err(Row::Size.at(0));
    }
    Curve::new(file, file.code())
}

// What is printed for the bytes of a file, in the place of what the text held. (A text is too large to be handed on.)
pub fn write_text(bytes: &[u8], text: &mut Text)
    ensures { text.new.bytes ≡ sheet_text bytes.now }
{
    match accept(bytes) {
        Ok(curve) => sheet(&curve, text),
        Err(Refusal { row, place }) => words_line(text, "refused ", row.number(), " at ", place),
    }
}

// The same, as a text of its own.
pub fn sheet_text(bytes: &[u8]) -> Text
    ensures { result.bytes ≡ sheet_text bytes.now }
{
    let mut text = Text::new();
    write_text(bytes, &mut text);
    text
}
