// Open, for C.
#![tactic(auto)]

ghost use Rattle.std.specs.Prelude.{◌≡◌, map, length};
ghost use Rattle.model.specs.Answer.{filled};
ghost use Rattle.layout.specs.Layout.{points_of};
ghost use Rattle.file.specs.Open.{open_answer};
ghost use Rattle.exports.specs.Exports.{c_number, c_shape_and_count};

use exports::refusal;
use file::Opened;

#[unsafe(no_mangle)]
pub extern "C" fn curve_open(
    bytes: &[u8],
    areas: &mut [u32],
    values: &mut [u32],
    slopes: &mut [i32],
) -> i64
    ensures answer { result
        ≡ c_number c_shape_and_count (open_answer bytes.now
        (length areas.old) (length values.old) (length slopes.old)) }
    ensures areas { areas.new
        ≡ filled (open_answer bytes.now
        (length areas.old) (length values.old) (length slopes.old))
        (map (λ p. p.area) (points_of bytes.now)) areas.old }
    ensures values { values.new
        ≡ filled (open_answer bytes.now
        (length areas.old) (length values.old) (length slopes.old))
        (map (λ p. p.value) (points_of bytes.now)) values.old }
    ensures slopes { slopes.new
        ≡ filled (open_answer bytes.now
        (length areas.old) (length values.old) (length slopes.old))
        (map (λ p. p.slope) (points_of bytes.now)) slopes.old }
{
    match file::open(bytes, areas, values, slopes) {
        Opened::Refused(row, place) => refusal(row, place),
        Opened::Curve(shape, count) => 256 * i64::from(shape.code()) + i64::from(count),
    }
}
