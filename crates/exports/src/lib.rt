// What the calls give to C for a refusal.
#![tactic(auto)]

ghost use Rattle.std.specs.Prelude.{◌≡◌, ◌≤◌, ◌+◌, ◌*◌, pos, neg_ℤ};
ghost use Rattle.refusal.specs.Refusal.{number_of};
ghost use Rattle.exports.specs.Exports.{word};

use refusal::Row;

// 2^32
const WORD: i64 = 4294967296;

// A refusal as a number, since C takes one. The largest are Import's, 13 and 14.
pub fn import_refusal(number: u32, place: u32) -> i64
    requires { number ≤ 14 }
    ensures { result ≡ neg_ℤ (pos (word * number + place)) }
{
    -(WORD * i64::from(number) + i64::from(place))
}

// The same of a row.
pub fn refusal(row: Row, place: u32) -> i64
    ensures { result ≡ neg_ℤ (pos (word * number_of row + place)) }
{
    import_refusal(row.number(), place)
}
