// Reads job sheets from standard input, and writes the reader's answer to each, one to a line.
// A record is two bytes with the sheet's length, low byte first, one with the name's length, the name, the sheet.
#![tactic(auto)]

ghost use Rattle.std.specs.Prelude.{◌<◌, ◌≤◌, length};

use card::refusal::Refusal;
use listing::input::read_full;
use listing::{figure, text};
use remaining::read_job;
use sheet::SheetJob;
use std::io;
use std::io::Read;

// A number that no run uses up: a loop that reads has to end by itself.
const MOST_RECORDS: u32 = 1000000;

// Fills the first `n` bytes, and says whether the input had them all.
fn filled<R: Read>(from: &mut R, out: &mut [u8], n: usize) -> io::Result<bool>
    requires { n ≤ length out.old }
{
    let read = read_full(from, &mut out[..n])?;
    Ok(read == n)
}

fn write_counts(rt: &impl Print, job: &SheetJob) -> io::Result<()> {
    text(rt, b": READ")?;
    figure(rt, job.people)?;
    figure(rt, job.steps)?;
    figure(rt, job.rules)
}

fn write_refusal(rt: &impl Print, refusal: Refusal) -> io::Result<()> {
    text(rt, b": REFUSED")?;
    figure(rt, u32::from(refusal.fault) as usize)?;
    text(rt, b" CARD")?;
    figure(rt, refusal.card as usize)
}

// Writes the answer to a sheet.
fn write_answer(rt: &impl Print, name: &[u8], bytes: &[u8]) -> io::Result<()> {
    text(rt, name)?;
    match read_job(bytes) {
        Ok(job) => write_counts(rt, &job)?,
        Err(refusal) => write_refusal(rt, refusal)?,
    }
    text(rt, b"\n")
}

// Reads a name and a sheet of these lengths, and answers them; says whether there may be more.
fn answer_record<R: Read>(
    rt: &impl Print,
    from: &mut R,
    letters: usize,
    size: usize,
) -> io::Result<bool>
    requires { (letters < 256) × (size < 65536) }
{
    let mut name = [0u8; 255];
    if !filled(from, &mut name, letters)? {
        return Ok(false);
    }
    let mut bytes = [0u8; 65535];
    if !filled(from, &mut bytes, size)? {
        return Ok(false);
    }
    write_answer(rt, &name[..letters], &bytes[..size])?;
    Ok(true)
}

fn wide(byte: u8) -> usize
    ensures { result < 256 }
{
    byte as usize
}

// Reads and answers one record; says whether there may be more.
fn next_record<R: Read>(rt: &impl Print, from: &mut R) -> io::Result<bool> {
    let mut head = [0u8; 3];
    if !filled(from, &mut head, 3)? {
        return Ok(false);
    }
    answer_record(rt, from, wide(head[2]), wide(head[1]) * 256 + wide(head[0]))
}

fn main(rt: HostRuntime) -> io::Result<()> {
    let mut from = rt.reader();
    for _ in 0..MOST_RECORDS {
        if !next_record(&rt, &mut from)? {
            break;
        }
    }
    Ok(())
}
