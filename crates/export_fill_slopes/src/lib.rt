// The filling of slopes, for C.
#![tactic(auto)]

ghost use Rattle.std.specs.Prelude.{◌≡◌, pos, length};
ghost use Rattle.harmonic.specs.Fill.{fill_answer, slopes_after};
ghost use Rattle.exports.specs.Exports.{c_number};

use exports::refusal;
use slopes::Supplied;

#[unsafe(no_mangle)]
pub extern "C" fn curve_fill_slopes(areas: &[u32], values: &[u32], slopes: &mut [i32]) -> i64
    ensures answer { result
        ≡ c_number pos (fill_answer areas.now values.now (length slopes.old)) }
    ensures slopes { slopes.new
        ≡ slopes_after areas.now values.now slopes.old }
{
    match slopes::fill_slopes(areas, values, slopes) {
        Supplied::Refused(row, place) => refusal(row, place),
        Supplied::Points(n) => i64::from(n),
    }
}
