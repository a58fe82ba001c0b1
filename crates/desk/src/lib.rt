// The desk reading.
#![tactic(auto)]

ghost use Rattle.std.specs.Prelude.{◌≡◌, ◌≤◌, ◌*◌, ◌++◌, length, take, drop};
ghost use Rattle.model.specs.Answer.{filled};
ghost use Rattle.layout.specs.Layout.{record_size, count};
ghost use Rattle.desk_answer.specs.Desk.{desk_answer, desk_number, point_records};
ghost use Rattle.desk_answer.specs.Inner.{Answered};

use desk_answer::copy_block;
use layout::{CurveFile, HEAD_SIZE, RECORD_SIZE};
use points::Points;
use refusal::{Refusal, Row};
use rows::Curve;

// Copies all of src to the start of dst. Two records, the fewest of a curve, are one block. (By `last` a copy in two parts is
// proved too, so an edit that leaves a part out is refused for that.)
#[tactic(auto, using(crate::proofs::Blocks::last))]
fn copy(src: &[u8], dst: &mut [u8])
    requires { length src.now ≤ length dst.old }
    ensures { dst.new
        ≡ take (length src.now) src.now ++ drop (length src.now) dst.old }
{
    if src.len() == 24 {
        copy_block::<24>(src, 0, dst, 0);
        return;
    }
    dst[..src.len()].copy_from_slice(src);
}

// desk_two has these steps too, but asks for other room and copies other records: two of the seven.
#[tactic(auto, using(crate::proofs::Records::sizes, desk_answer::proofs::Steps::located))]
fn read(bytes: &[u8], area: u32, scratch: &mut [u8]) -> Result<i32, Refusal>
    ensures { Answered (record_size * count bytes.now) bytes.now area (point_records bytes.now) scratch.old scratch.new result }
{
    layout::check(bytes)?;
    let file = CurveFile { bytes };
    if scratch.len() < RECORD_SIZE * file.count() {
        return Err(Row::Room.at(0));
    }
    let shape = rows::check_to_read(&file, file.code())?;
    let curve = Curve {
        points: file,
        shape,
    };
    let i = lookup::locate(&curve, area)?;
    copy(&bytes[HEAD_SIZE..], scratch);
    Ok(lookup::factor_at(&curve, i, area))
}

// C takes one number, so a refusal is one too.
pub fn desk_reading(bytes: &[u8], area: u32, scratch: &mut [u8]) -> i32
    ensures number { result ≡ desk_number (desk_answer bytes.now area (length scratch.old)) }
    ensures scratch { scratch.new
        ≡ filled (desk_answer bytes.now area (length scratch.old))
        (point_records bytes.now) scratch.old }
{
    desk_answer::number(read(bytes, area, scratch))
}
