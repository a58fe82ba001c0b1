// The factors at two areas of one curve, from the reading's promise alone.
#![tactic(auto)]

ghost use Rattle.std.specs.Prelude.{◌≡◌};
ghost use Rattle.model.specs.Check.{on_lists};
ghost use Rattle.pair.specs.Pair.{pair_answer};
ghost use Rattle.pair.specs.Calls.{factors_answer};

use curve::Reading;
use refusal::Row;

// What Pair answers: the form and plan factors and the plan factor less the form factor, or a refusal's number and place.
// Document 01 names this form: one enum for each call.
#[derive(Clone, Copy, Debug, PartialEq, Eq)]
pub enum Pair {
    Factors(i32, i32, i32),
    Refused(Row, u32),
}

// Document 01 names lent lists, and C gives the code as a number.
pub fn read_pair(
    areas: &[u32],
    values: &[u32],
    slopes: &[i32],
    shape: u32,
    form: u32,
    plan: u32,
) -> Pair
    ensures { factors_answer result
        ≡ on_lists areas.now values.now slopes.now (λ ps. pair_answer ps shape form plan) }
{
    let at_form = curve::read(areas, values, slopes, shape, form);
    match at_form {
        Reading::Refused(row, place) => Pair::Refused(row, place),
        Reading::Factor(f) => {
            let at_plan = curve::read(areas, values, slopes, shape, plan);
            match at_plan {
                Reading::Refused(row, _) => Pair::Refused(row, 1),
                Reading::Factor(p) => Pair::Factors(f, p, p - f),
            }
        }
    }
}
