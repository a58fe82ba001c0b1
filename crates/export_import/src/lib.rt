// Import, for C.
#![tactic(auto)]

ghost use Rattle.std.specs.Prelude.{◌≡◌, map, pos, length};
ghost use Rattle.model.specs.Answer.{filled};
ghost use Rattle.import.specs.Import.{points_of, import_answer};
ghost use Rattle.exports.specs.Exports.{c_number};

use exports::refusal;
use import::Imported;

#[unsafe(no_mangle)]
pub extern "C" fn curve_import(
    bytes: &[u8],
    shape: u32,
    areas: &mut [u32],
    values: &mut [u32],
    slopes: &mut [i32],
) -> i64
    ensures answer { result
        ≡ c_number pos (import_answer bytes.now shape
        (length areas.old) (length values.old) (length slopes.old)) }
    ensures areas { areas.new
        ≡ filled (import_answer bytes.now shape
        (length areas.old) (length values.old) (length slopes.old))
        (map (λ p. p.area) (points_of bytes.now)) areas.old }
    ensures values { values.new
        ≡ filled (import_answer bytes.now shape
        (length areas.old) (length values.old) (length slopes.old))
        (map (λ p. p.value) (points_of bytes.now)) values.old }
    ensures slopes { slopes.new
        ≡ filled (import_answer bytes.now shape
        (length areas.old) (length values.old) (length slopes.old))
        (map (λ p. p.slope) (points_of bytes.now)) slopes.old }
{
    match import::import(bytes, shape, areas, values, slopes) {
        Imported::Refused(row, place) => refusal(row, place),
        Imported::Points(n) => i64::from(n),
    }
}
