// Read, for C.
#![tactic(auto)]

ghost use Rattle.std.specs.Prelude.{◌≡◌};
ghost use Rattle.model.specs.Check.{on_lists};
ghost use Rattle.model.specs.Read.{read_answer};
ghost use Rattle.exports.specs.Exports.{c_number};

use curve::Reading;
use exports::refusal;

#[unsafe(no_mangle)]
pub extern "C" fn curve_read(
    areas: &[u32],
    values: &[u32],
    slopes: &[i32],
    shape: u32,
    area: u32,
) -> i64
    ensures { result
        ≡ c_number (λ factor. factor) (on_lists areas.now values.now slopes.now
        (λ ps. read_answer ps shape area)) }
{
    match curve::read(areas, values, slopes, shape, area) {
        Reading::Refused(row, place) => refusal(row, place),
        Reading::Factor(factor) => i64::from(factor),
    }
}
