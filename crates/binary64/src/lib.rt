// Binary64 numbers as whole numbers.
#![tactic(auto)]

ghost use Rattle.std.specs.Prelude.{◌≡◌};
ghost use Rattle.std.specs.Float.{binary64, float_is_finite};
ghost use Rattle.std.specs.Float.Ieee.{of_bits};
ghost use Rattle.binary64.specs.Value.{whole_number};
ghost use Rattle.binary64.specs.Inner.{figure_of, saturated};

use std::num::{f64_from_bits_with_nan, f64_to_bits_with_nan, saturating_f64_to_i32};

// The number that a pattern of bits stands for.
#[inline(always)]
pub fn from_pattern(bits: u64) -> f64
    ensures { result ≡ of_bits binary64 bits }
{
    if 0x7ff0_0000_0000_0000 < bits % 0x8000_0000_0000_0000 {
        return not_a_number(bits);
    }
    f64_from_bits_with_nan(bits)
}

// Not inlined: a branch that is not taken takes less time than a choice between two numbers.
#[cold]
#[inline(never)]
fn not_a_number(bits: u64) -> f64
    ensures { result ≡ of_bits binary64 bits }
{
    f64_from_bits_with_nan(bits)
}

// Whether a number is finite. (std's `is_finite` takes it from itself: for an infinity that raises the flag of invalid
// operations, and ends a program that traps it.)
fn is_finite(x: f64) -> bool
    ensures { result ≡ float_is_finite x }
{
    f64::NEG_INFINITY < x && x < f64::INFINITY
}

// 2^52 + 2^51
const WHOLE_BITS: f64 = 6755399441055744.0;

// A number as a whole number, if it is finite and whole; one that 32 bits do not hold as the nearest that they hold.
#[inline(always)]
pub fn whole_number(x: f64) -> Option<i32>
    ensures { figure_of result ≡ saturated (whole_number x) }
{
    // Numbers of the size of the sum are 1 apart, so its lowest bits are those of x, if x is whole and 32 bits hold it. Of any
    // other x they are a whole number that is not x.
    let bits = f64_to_bits_with_nan(x + WHOLE_BITS);
    let z = ((bits % 4294967296) as u32).cast_signed();
    let found = f64::from(z) == x;
    if found {
        return Some(z);
    }
    truncated_number(x)
}

// The same, of any number, by what it is without its fraction. Not inlined: few figures come here.
#[cold]
#[inline(never)]
fn truncated_number(x: f64) -> Option<i32>
    ensures { figure_of result ≡ saturated (whole_number x) }
{
    if is_finite(x) && x.trunc() == x {
        return Some(saturating_f64_to_i32(x));
    }
    None
}
