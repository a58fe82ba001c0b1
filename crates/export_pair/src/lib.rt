// Pair, for C.
#![tactic(auto)]

ghost use Rattle.std.specs.Prelude.{◌≡◌, pos, length};
ghost use Rattle.exports.specs.Exports.{c_number, pair_entries, c_pair_answer, c_pair_list};

use exports::refusal;
use pair::Pair;
use refusal::Row;

const PAIR_ENTRIES: usize = 3;

#[unsafe(no_mangle)]
pub extern "C" fn curve_pair(
    areas: &[u32],
    values: &[u32],
    slopes: &[i32],
    shape: u32,
    form: u32,
    plan: u32,
    out: &mut [i32],
) -> i64
    ensures answer { result
        ≡ c_number (λ _. pos pair_entries) (c_pair_answer areas.now values.now slopes.now
        shape form plan (length out.old)) }
    ensures list { out.new
        ≡ c_pair_list (c_pair_answer areas.now values.now slopes.now
        shape form plan (length out.old)) out.old }
{
    if out.len() < PAIR_ENTRIES {
        return refusal(Row::Room, 0);
    }
    match pair::read_pair(areas, values, slopes, shape, form, plan) {
        Pair::Refused(row, place) => refusal(row, place),
        Pair::Factors(at_form, at_plan, difference) => {
            out[0] = at_form;
            out[1] = at_plan;
            out[2] = difference;
            PAIR_ENTRIES as i64
        }
    }
}
