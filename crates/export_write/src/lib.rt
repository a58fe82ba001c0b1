// Write, for C.
#![tactic(auto)]

ghost use Rattle.std.specs.Prelude.{◌≡◌, pos, length};
ghost use Rattle.model.specs.Answer.{filled};
ghost use Rattle.model.specs.Points.{points};
ghost use Rattle.model.specs.Check.{on_lists};
ghost use Rattle.encoding.specs.File.{file_bytes};
ghost use Rattle.file.specs.Write.{write_answer};
ghost use Rattle.exports.specs.Exports.{c_number};

use exports::refusal;
use file::Written;

#[unsafe(no_mangle)]
pub extern "C" fn curve_write(
    areas: &[u32],
    values: &[u32],
    slopes: &[i32],
    shape: u32,
    out: &mut [u8],
) -> i64
    ensures answer { result
        ≡ c_number pos (on_lists areas.now values.now slopes.now
        (λ ps. write_answer ps shape (length out.old))) }
    ensures out { out.new
        ≡ filled (on_lists areas.now values.now slopes.now
        (λ ps. write_answer ps shape (length out.old)))
        (file_bytes (points areas.now values.now slopes.now) shape) out.old }
{
    match file::write(areas, values, slopes, shape, out) {
        Written::Refused(row, place) => refusal(row, place),
        Written::Length(n) => i64::from(n),
    }
}
