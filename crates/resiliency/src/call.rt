// The spare call: a sheet, a buffer and a cap become a number and 16 bytes.
ghost use Rattle.std.specs.Prelude.{[], ◌∷◌, ◌++◌, ◌≡◌, ◌≤◌, length, drop, get_or};
ghost use Rattle.answer.specs.Bytes.{written};
ghost use Rattle.answer.specs.Number.{number_of};
ghost use Rattle.resiliency.specs.Group.{members_in, Sized};
ghost use Rattle.resiliency.specs.Known.{told};
ghost use Rattle.resiliency.specs.Spare.{away_tags, spare_bytes, spare_answer};
ghost use Rattle.resiliency.specs.Left.{Left, Groups};

use super::Spared;
use super::group::{Group, MOST_AWAY};
use super::job::job_count;
use answer::bytes::put_long;
use bits::sizes::MOST_PEOPLE;
use card::refusal::{Fault, Refusal};
use remaining::read_job;

// The bytes of a spare count.
const SPARE_BYTES: usize = 16;

// Writes four numbers.
fn put_four(out: &mut [u8], count: u32, a: u32, b: u32, c: u32)
    requires { 16 ≤ length out.old }
    ensures { out.new ≡ written (count ∷ a ∷ b ∷ c ∷ []) ++ drop 16 out.old }
{
    put_long(out, 0, count);
    put_long(out, 4, a);
    put_long(out, 8, b);
    put_long(out, 12, c);
}

// The tag of member `k` of a group, and 0 past its end.
fn tag_at(tag: &[u32; MOST_PEOPLE], group: Group, k: usize) -> u32
    requires { (length tag.now ≡ 64) × Sized group }
    ensures { result ≡ get_or (away_tags tag.now 3 (members_in group)) k 0 }
{
    if k < group.size {
        return tag[group.member[k] as usize];
    }
    0
}

// Writes the count and the tags of the group, or refuses a job that has no plan.
fn write_count(
    tag: &[u32; MOST_PEOPLE],
    cap: u32,
    count: Spared,
    out: &mut [u8],
) -> Result<(), Refusal>
    requires { (length tag.now ≡ 64) × (cap ≤ 3) × (16 ≤ length out.old) × Groups count }
    ensures { Left (spare_bytes tag.now cap out.old (told count)) (number_of result) out.new }
{
    match count {
        Spared::Capped => put_four(out, cap, 0, 0, 0),
        Spared::Unsatisfiable => return Err(Fault::Plan.on(0)),
        Spared::Broken(group) => {
            let fewer = group.size as u32 - 1;
            let first = tag_at(tag, group, 0);
            let second = tag_at(tag, group, 1);
            let third = tag_at(tag, group, 2);
            put_four(out, fewer, first, second, third);
        }
    }
    Ok(())
}

// The spare call. Every byte of the buffer and the number of the answer are what `spare_answer` gives.
pub fn spare(sheet: &[u8], answer: &mut [u8], cap: u32) -> Result<(), Refusal>
    ensures { Left (spare_answer cap sheet.now answer.old) (number_of result) answer.new }
{
    let over = cap as usize > MOST_AWAY;
    if over {
        return Err(Fault::Cap.on(0));
    }
    let job = read_job(sheet)?;
    let short = answer.len() < SPARE_BYTES;
    if short {
        return Err(Fault::Short.on(0));
    }
    let count = job_count(&job, cap as usize);
    write_count(&job.person_tag, cap, count, answer)
}
