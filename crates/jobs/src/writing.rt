// From a job to its records.
#![tactic(auto, unfolding(crate::specs::Writing::too_wide, crate::specs::Writing::laid, crate::specs::Writing::wrote_of, crate::specs::Writing::records_of))]

ghost use Rattle.std.specs.Prelude.{◌≡◌, false, [], ◌+◌, ◌*◌, ◌≤◌, length, ltb};
ghost use Rattle.std.proofs.lemmas.List.Edits.{sets};
ghost use Rattle.jobs.specs.declared.Job.TheVariants as job;
ghost use Rattle.jobs.specs.Cycles.{column_bytes, row_bytes};
ghost use Rattle.jobs.specs.Writing.{too_wide, wide, head_long, head_short, data_records, out_records, records_of, Wrote, laid, wrote_of};

use crate::Job;

// Why a job was not written; the room is as it was.
#[derive(Clone, Copy)]
pub enum Unwritten {
    // A row above 24 bits or a column above 16. The room was not looked at.
    TooWide,
    // The room is shorter than the records.
    TooSmall,
}

// A column above 16 bits, or a row above 24.
fn is_wide(column: usize, row: usize) -> bool
    ensures { result ≡ wide column row }
{
    65535 < column || 16777215 < row
}

pub fn too_wide(job: Job) -> bool
    ensures { result ≡ too_wide job }
{
    match job {
        Job::Read { column, row }
        | Job::ReadOut { column, row, .. }
        | Job::Program { column, row } => is_wide(column, row),
        Job::Erase { row } | Job::Status { row, .. } => is_wide(0, row),
    }
}

// The room has less than `fixed` bytes and two for each of `n` data cycles. By division, so that no `n` wraps.
pub fn too_small(room: usize, fixed: usize, n: usize) -> bool
    ensures value { result ≡ ltb room (fixed + 2 * n) }
    ensures fits { result ≡ false → fixed + 2 * n ≤ room }
{
    room < fixed || (room - fixed) / 2 < n
}

// A first command, and the two cycles of a column and the three of a row, least significant byte first. Not one function with
// `put_short_head`: twelve stores and eight, and one writer for both would have to say how many of them there are.
fn put_long_head(room: &mut [u8], first: u8, column: usize, row: usize)
    requires { 12 ≤ length room.old }
    ensures { room.new ≡ sets room.old 0 (head_long first (column_bytes column) (row_bytes row)) }
{
    room[0] = 0;
    room[1] = first;
    room[2] = 1;
    room[3] = (column % 256) as u8;
    room[4] = 1;
    room[5] = (column / 256 % 256) as u8;
    room[6] = 1;
    room[7] = (row % 256) as u8;
    room[8] = 1;
    room[9] = (row / 256 % 256) as u8;
    room[10] = 1;
    room[11] = (row / 65536 % 256) as u8;
}

// A first command, and the three cycles of a row.
fn put_short_head(room: &mut [u8], first: u8, row: usize)
    requires { 8 ≤ length room.old }
    ensures { room.new ≡ sets room.old 0 (head_short first (row_bytes row)) }
{
    room[0] = 0;
    room[1] = first;
    room[2] = 1;
    room[3] = (row % 256) as u8;
    room[4] = 1;
    room[5] = (row / 256 % 256) as u8;
    room[6] = 1;
    room[7] = (row / 65536 % 256) as u8;
}

// The bytes as data-in cycles, from byte `at` of the room on.
fn put_data(room: &mut [u8], at: usize, bytes: &[u8])
    requires { at + 2 * length bytes.now ≤ length room.old }
    ensures { room.new ≡ sets room.old at (data_records bytes.now) }
{
    for (k, &byte) in bytes.iter().enumerate() {
        room[at + 2 * k] = 2;
        room[at + 2 * k + 1] = byte;
    }
}

// So many data-out cycles, from byte `at` of the room on.
fn put_outs(room: &mut [u8], at: usize, count: usize)
    requires { at + 2 * count ≤ length room.old }
    ensures { room.new ≡ sets room.old at (out_records count) }
{
    for k in 0..count {
        room[at + 2 * k] = 3;
        room[at + 2 * k + 1] = 0;
    }
}

fn write_read(column: usize, row: usize, room: &mut [u8]) -> Result<usize, Unwritten>
    ensures { ◌≡◌ {A = Wrote} (record { answer = result; room = room.new }) (laid (records_of (job.Read column row) []) room.old) }
{
    if too_small(room.len(), 14, 0) {
        return Err(Unwritten::TooSmall);
    }
    put_long_head(room, 0x00, column, row);
    room[12] = 0;
    room[13] = 0x30;
    Ok(14)
}

fn write_read_out(
    column: usize,
    row: usize,
    count: usize,
    room: &mut [u8],
) -> Result<usize, Unwritten>
    ensures { ◌≡◌ {A = Wrote} (record { answer = result; room = room.new }) (laid (records_of (job.ReadOut column row count) []) room.old) }
{
    if too_small(room.len(), 14, count) {
        return Err(Unwritten::TooSmall);
    }
    put_long_head(room, 0x06, column, row);
    room[12] = 0;
    room[13] = 0xe0;
    put_outs(room, 14, count);
    Ok(14 + 2 * count)
}

fn write_program(
    column: usize,
    row: usize,
    bytes: &[u8],
    room: &mut [u8],
) -> Result<usize, Unwritten>
    ensures { ◌≡◌ {A = Wrote} (record { answer = result; room = room.new }) (laid (records_of (job.Program column row) bytes.now) room.old) }
{
    let n = bytes.len();
    if too_small(room.len(), 14, n) {
        return Err(Unwritten::TooSmall);
    }
    put_long_head(room, 0x80, column, row);
    put_data(room, 12, bytes);
    room[12 + 2 * n] = 0;
    room[12 + 2 * n + 1] = 0x10;
    Ok(14 + 2 * n)
}

fn write_erase(row: usize, room: &mut [u8]) -> Result<usize, Unwritten>
    ensures { ◌≡◌ {A = Wrote} (record { answer = result; room = room.new }) (laid (records_of (job.Erase row) []) room.old) }
{
    if too_small(room.len(), 10, 0) {
        return Err(Unwritten::TooSmall);
    }
    put_short_head(room, 0x60, row);
    room[8] = 0;
    room[9] = 0xd0;
    Ok(10)
}

fn write_status(row: usize, count: usize, room: &mut [u8]) -> Result<usize, Unwritten>
    ensures { ◌≡◌ {A = Wrote} (record { answer = result; room = room.new }) (laid (records_of (job.Status row count) []) room.old) }
{
    if too_small(room.len(), 8, count) {
        return Err(Unwritten::TooSmall);
    }
    put_short_head(room, 0x78, row);
    put_outs(room, 8, count);
    Ok(8 + 2 * count)
}

// The job's records at the front of the room, and how many of its bytes they are; those after them are as they were. `bytes` are a program's; another job takes no notice of them.
pub fn write(job: Job, bytes: &[u8], room: &mut [u8]) -> Result<usize, Unwritten>
    ensures { ◌≡◌ {A = Wrote} (record { answer = result; room = room.new }) (wrote_of job bytes.now room.old) }
{
    if too_wide(job) {
        return Err(Unwritten::TooWide);
    }
    match job {
        Job::Read { column, row } => write_read(column, row, room),
        Job::ReadOut { column, row, count } => write_read_out(column, row, count, room),
        Job::Program { column, row } => write_program(column, row, bytes, room),
        Job::Erase { row } => write_erase(row, room),
        Job::Status { row, count } => write_status(row, count, room),
    }
}
