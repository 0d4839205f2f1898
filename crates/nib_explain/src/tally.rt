// The events of a trace, counted by their answers: number 0 of the counts is how many were accepted, number n how many rule n refused.
ghost use Rattle.std.specs.Prelude.{◌≡◌};
ghost use Rattle.nib_explain.specs.Tally.{bumped, tallied, number_at};

use nib_text::reading::up;

// Room for every rule that an event meets.
pub type Tally = [usize; 17];

fn bump(counts: &mut [usize], i: usize)
    ensures { counts.new ≡ bumped counts.old i }
{
    if i < counts.len() {
        counts[i] = up(counts[i]);
    }
}

// One event more, by the two bytes of its reply.
pub fn tally(counts: &mut [usize], first: u8, second: u8)
    ensures { counts.new ≡ tallied counts.old first second }
{
    let slot = if first == 2 { second as usize } else { 0 };
    bump(counts, slot);
}

// A number of the counts, and 0 where there is none.
pub fn number_at(counts: &[usize], i: usize) -> usize
    ensures { result ≡ number_at counts.now i }
{
    counts.get(i).copied().unwrap_or(0)
}
