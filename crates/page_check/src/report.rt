// A check as plain numbers, for hosts.
#![tactic(auto, unfolding(crate::specs::Report::report_of, crate::specs::Report::report_numbers))]

ghost use Rattle.std.specs.Prelude.{◌≡◌, ◌++◌, drop, length, ◌≤◌};
ghost use Rattle.page_check.specs.Report.{Reported, report_of, report_numbers};

use crate::{Checked, Unchecked, check_answer};

fn put_numbers(c: Checked, room: &mut [u64])
    requires { 9 ≤ length room.old }
    ensures { room.new ≡ report_numbers c ++ drop 9 room.old }
{
    let bytes = c.broken.bytes;
    room[0] = c.copy as u64;
    room[1] = c.broken.count as u64;
    room[2] = bytes[0] as u64;
    room[3] = bytes[1] as u64;
    room[4] = bytes[2] as u64;
    room[5] = bytes[3] as u64;
    room[6] = bytes[4] as u64;
    room[7] = c.endurance.is_some() as u64;
    room[8] = c.endurance.unwrap_or(0);
}

// 0, and the first nine numbers are the report; or why there is none, and the room stays as it is: 1 another length than 768,
// 2 no good copy, 16 room for fewer than nine numbers. Numbers, since C's `nib_page_report` answers them.
pub fn report(answer: &[u8], room: &mut [u64]) -> u32
    ensures { ◌≡◌ {A = Reported} (record { answer = result; room = room.new }) (report_of answer.now room.old) }
{
    if room.len() < 9 {
        return 16;
    }
    match check_answer(answer) {
        Err(Unchecked::Length) => 1,
        Err(Unchecked::NoGoodCopy) => 2,
        Ok(c) => {
            put_numbers(c, room);
            0
        }
    }
}
