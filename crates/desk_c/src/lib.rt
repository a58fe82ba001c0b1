// The desk reading, for C. (A name for C is a function of its own, so this one has a twin in desk_two_c.)
#![tactic(auto)]

ghost use Rattle.std.specs.Prelude.{◌≡◌, length};
ghost use Rattle.model.specs.Answer.{filled};
ghost use Rattle.desk_answer.specs.Desk.{desk_answer, desk_number, point_records};

#[unsafe(no_mangle)]
pub extern "C" fn desk_reading(bytes: &[u8], area: u32, scratch: &mut [u8]) -> i32
    ensures number { result ≡ desk_number (desk_answer bytes.now area (length scratch.old)) }
    ensures scratch { scratch.new
        ≡ filled (desk_answer bytes.now area (length scratch.old))
        (point_records bytes.now) scratch.old }
{
    desk::desk_reading(bytes, area, scratch)
}
