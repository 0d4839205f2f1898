// Whole jobs for hosts (document 02, A5). Jobs are named by numbers: 1 read, 2 read-out, 3 program, 4 erase, 5 status.
ghost use Rattle.std.specs.Prelude.{◌≡◌};
ghost use Rattle.jobs.specs.Numbers.{named_job, NumberedWrite, numbered_write, NumberedRead, numbered_read, misfit_number};

use jobs::numbers::{misfit_number, read_numbers, write_numbers};

// The records of a job: 0 no such job, 1 too wide, 2 too small a room, else how many bytes of the room they are.
#[unsafe(no_mangle)]
pub extern "C" fn nib_job_write(
    kind: u8,
    column: usize,
    row: usize,
    count: usize,
    bytes: &[u8],
    room: &mut [u8],
) -> usize
    ensures { ◌≡◌ {A = NumberedWrite}
        (record { answer = result; room = room.new })
        (numbered_write (named_job kind column row count) bytes.now room.old) }
{
    write_numbers(kind, column, row, count, bytes, room)
}

// The six numbers of what stands at a place of a list of records; answers the first of them, or 7 where there is no room.
#[unsafe(no_mangle)]
pub extern "C" fn nib_job_read(records: &[u8], at: usize, numbers: &mut [usize]) -> usize
    ensures { ◌≡◌ {A = NumberedRead}
        (record { answer = result; numbers = numbers.new })
        (numbered_read records.now at numbers.old) }
{
    read_numbers(records, at, numbers)
}

// The first record of a list that doesn't fit.
#[unsafe(no_mangle)]
pub extern "C" fn nib_job_misfit(records: &[u8]) -> usize
    ensures { result ≡ misfit_number records.now }
{
    misfit_number(records)
}
