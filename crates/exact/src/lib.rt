// Exact arithmetic: floor division, the rounding of k + r / d, and quotient and remainder of a product that may pass 64 bits.
#![tactic(auto)]

ghost use Rattle.std.specs.Prelude.{◌≡◌, pos, ◌+ℤ◌, ◌*ℤ◌, ◌*◌};
ghost use Rattle.exact.specs.Fraction.{◌over◌};
ghost use Rattle.exact.specs.Rounding.{floor_div, round};
ghost use Rattle.exact.specs.Inner.{Shiftable, Mixed, Divided, Shared};

// n / d, rounded down, also below 0. `/` truncates, so a million times d is added to n first, and a million taken off the
// quotient.
pub fn floor_div(n: i32, d: u32) -> i32
    requires { Shiftable n d }
    ensures { result ≡ floor_div n d }
{
    let above = n + (1000000 * d) as i32;
    (above as u32 / d) as i32 - 1000000
}

// k + r / d, rounded. Nowhere else is a tie decided: 2 r is d there, and k goes to k + 1 if it is odd. A million is added to k,
// so that the remainder by 2 is that of a number that is not negative.
pub fn nearest(k: i32, r: u64, d: u64) -> i32
    requires { Mixed k r d }
    ensures { result ≡ round ((k *ℤ pos d +ℤ pos r) over pos d) }
{
    let odd = (k + 1000000) as u64 % 2;
    if d < 2 * r + odd {
        return k + 1;
    }
    k
}

// Quotient and remainder of a division.
#[derive(Clone, Copy)]
pub struct Quotient {
    pub q: u64,
    pub r: u64,
}

// Quotient and remainder of x * y by c, by one division though x * y may pass 64 bits. In base k the product is n and a digit,
// and c is d * k less g; n / d is the quotient or one less.
pub fn share_by(x: u64, y: u64, c: u64, k: u64) -> Quotient
    requires { Shared x y c k }
    ensures { Divided (x * y) c result.q result.r }
{
    let d = c / k + 1;
    let g = k - c % k;
    let p = x % k * y;
    let n = x / k * y + p / k;
    let q = n / d;
    let r = n % d * k + q * g + p % k;
    if r < c {
        return Quotient { q, r };
    }
    Quotient { q: q + 1, r: r - c }
}
