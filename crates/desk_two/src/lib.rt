// The desk reading with a scratch of two points.
#![tactic(auto)]

ghost use Rattle.std.specs.Prelude.{◌≡◌, ◌*◌, length};
ghost use Rattle.model.specs.Answer.{filled};
ghost use Rattle.layout.specs.Layout.{record_size};
ghost use Rattle.desk_answer.specs.Desk.{desk_answer_two, desk_number, segment_records};
ghost use Rattle.desk_answer.specs.Inner.{Answered};

use desk_answer::copy_block;
use layout::{CurveFile, HEAD_SIZE, RECORD_SIZE};
use refusal::{Refusal, Row};
use rows::Curve;

// The steps of desk, but for the room that is asked for and the records that are copied: two of the seven.
#[tactic(auto, using(crate::proofs::Records::records_fit, desk_answer::proofs::Steps::located))]
fn read(bytes: &[u8], area: u32, scratch: &mut [u8]) -> Result<i32, Refusal>
    ensures { Answered (2 * record_size) bytes.now area (segment_records bytes.now area) scratch.old scratch.new result }
{
    layout::check(bytes)?;
    let file = CurveFile { bytes };
    if scratch.len() < 2 * RECORD_SIZE {
        return Err(Row::Room.at(0));
    }
    let shape = rows::check_to_read(&file, file.code())?;
    let curve = Curve {
        points: file,
        shape,
    };
    let i = lookup::locate(&curve, area)?;
    copy_block::<24>(bytes, HEAD_SIZE + RECORD_SIZE * i, scratch, 0);
    Ok(lookup::factor_at(&curve, i, area))
}

// C takes one number, so a refusal is one too.
pub fn desk_reading_two(bytes: &[u8], area: u32, scratch: &mut [u8]) -> i32
    ensures number { result ≡ desk_number (desk_answer_two bytes.now area (length scratch.old)) }
    ensures scratch { scratch.new
        ≡ filled (desk_answer_two bytes.now area (length scratch.old))
        (segment_records bytes.now area) scratch.old }
{
    desk_answer::number(read(bytes, area, scratch))
}
