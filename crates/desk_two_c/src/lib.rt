// The desk reading with a scratch of two points, for C. (A name for C is a function of its own.)
#![tactic(auto)]

ghost use Rattle.std.specs.Prelude.{◌≡◌, length};
ghost use Rattle.model.specs.Answer.{filled};
ghost use Rattle.desk_answer.specs.Desk.{desk_answer_two, desk_number, segment_records};

#[unsafe(no_mangle)]
pub extern "C" fn desk_reading_two(bytes: &[u8], area: u32, scratch: &mut [u8]) -> i32
    ensures number { result ≡ desk_number (desk_answer_two bytes.now area (length scratch.old)) }
    ensures scratch { scratch.new
        ≡ filled (desk_answer_two bytes.now area (length scratch.old))
        (segment_records bytes.now area) scratch.old }
{
    desk_two::desk_reading_two(bytes, area, scratch)
}
