// What both desk readings share: the number that they give, and the copying of records.
#![tactic(auto)]

ghost use Rattle.std.specs.Prelude.{◌≡◌, length};
ghost use Rattle.refusal.specs.Refusal.{answer_of};
ghost use Rattle.desk_answer.specs.Desk.{desk_number};
ghost use Rattle.desk_answer.specs.Inner.{Fits, copied};

use refusal::Refusal;

// A factor, or -1,000,000 less a refusal's number: C takes one number.
pub fn number(answer: Result<i32, Refusal>) -> i32
    ensures { result ≡ desk_number (answer_of (λ f. f) answer) }
{
    match answer {
        Ok(factor) => factor,
        Err(refusal) => -1000000 - refusal.row.number() as i32,
    }
}

// Copies N bytes from an index of src on to one of dst. Their number is known, so the compiler moves them at once and not byte by
// byte.
pub fn copy_block<const N: usize>(src: &[u8], from: usize, dst: &mut [u8], to: usize)
    requires { Fits from to N (length src.now) (length dst.old) }
    ensures { dst.new ≡ copied from to N src.now dst.old }
{
    dst[to..to + N].copy_from_slice(&src[from..from + N]);
}
