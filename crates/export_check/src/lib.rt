// Check, for C.
#![tactic(auto)]

ghost use Rattle.std.specs.Prelude.{◌≡◌, pos};
ghost use Rattle.model.specs.Check.{check_answer, on_lists};
ghost use Rattle.exports.specs.Exports.{c_number};

use curve::Checked;
use exports::refusal;

#[unsafe(no_mangle)]
pub extern "C" fn curve_check(areas: &[u32], values: &[u32], slopes: &[i32], shape: u32) -> i64
    ensures { result
        ≡ c_number pos (on_lists areas.now values.now slopes.now
        (λ ps. check_answer ps shape)) }
{
    match curve::check(areas, values, slopes, shape) {
        Checked::Refused(row, place) => refusal(row, place),
        Checked::Segments(n) => i64::from(n),
    }
}
