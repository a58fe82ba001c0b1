// Sheet, for C.
#![tactic(auto)]

ghost use Rattle.std.specs.Prelude.{◌≡◌, pos, length};
ghost use Rattle.model.specs.Points.{points};
ghost use Rattle.model.specs.Check.{on_lists};
ghost use Rattle.model.specs.Sheet.{sheet_answer, sheet_list};
ghost use Rattle.exports.specs.Exports.{c_number};

use curve::Filled;
use exports::refusal;

#[unsafe(no_mangle)]
pub extern "C" fn curve_sheet(
    areas: &[u32],
    values: &[u32],
    slopes: &[i32],
    shape: u32,
    start: u32,
    step: u32,
    out: &mut [i32],
) -> i64
    ensures answer { result
        ≡ c_number pos (on_lists areas.now values.now slopes.now
        (λ ps. sheet_answer ps shape start step (length out.old))) }
    ensures list { out.new
        ≡ sheet_list (points areas.now values.now slopes.now) shape start step
        (on_lists areas.now values.now slopes.now
        (λ ps. sheet_answer ps shape start step (length out.old)))
        out.old }
{
    match curve::sheet(areas, values, slopes, shape, start, step, out) {
        Filled::Refused(row, place) => refusal(row, place),
        Filled::Entries(n) => i64::from(n),
    }
}
