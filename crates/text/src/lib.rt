// Numbers as text.
#![tactic(auto)]

ghost use Rattle.std.specs.Prelude.{◌≡◌};
ghost use Rattle.text.specs.Text.{decimal as Text·decimal, signed as Text·signed};

use arrayvec::ArrayString;
use itoa::Buffer;

// A number in decimal. None of 32 bits has more than ten digits.
pub fn decimal(n: u32) -> ArrayString<10>
    ensures { result.bytes ≡ Text·decimal n }
{
    let mut digits = ArrayString::new();
    digits.push_str(Buffer::new().format(n));
    digits
}

// A number in decimal, with a minus sign if it is below 0. (One function for both would ask for a capacity that is enough.)
pub fn signed(n: i32) -> ArrayString<11>
    ensures { result.bytes ≡ Text·signed n }
{
    let mut text = ArrayString::new();
    text.push_str(Buffer::new().format(n));
    text
}
