// The jobs, and the mix of each kind of trace.
use crate::polls::{job_bare, job_page, job_poll, job_poll_other};
use test_judge_cycles::put_reset;
use test_judge_jobs::{
    job_back, job_copy, job_copy_read, job_copy_write, job_erase, job_finish, job_get, job_give_up,
    job_id, job_low, job_lun_out, job_lun_status, job_order, job_out, job_parameters, job_program,
    job_read, job_set, job_status, job_twice,
};
use test_judge_parts::knobs::TraceKind;
use test_judge_parts::state::State;

#[derive(Clone, Copy, PartialEq, Eq)]
pub enum Job {
    Read,
    LunOut,
    Out,
    Program,
    Erase,
    LunStatus,
    Status,
    Id,
    Parameters,
    Get,
    Set,
    Low,
    Reset,
    Finish,
    Back,
    Twice,
    Copy,
    CopyRead,
    CopyWrite,
    GiveUp,
    Poll,
    PollOther,
    Page,
    Bare,
    Order,
}

impl Job {
    // All jobs, in the order of their digits.
    pub const ALL: [Job; 25] = [
        Job::Read,
        Job::LunOut,
        Job::Out,
        Job::Program,
        Job::Erase,
        Job::LunStatus,
        Job::Status,
        Job::Id,
        Job::Parameters,
        Job::Get,
        Job::Set,
        Job::Low,
        Job::Reset,
        Job::Finish,
        Job::Back,
        Job::Twice,
        Job::Copy,
        Job::CopyRead,
        Job::CopyWrite,
        Job::GiveUp,
        Job::Poll,
        Job::PollOther,
        Job::Page,
        Job::Bare,
        Job::Order,
    ];

    // The job of a digit: 0 to 9, then A and on to Order's.
    fn of(digit: u8) -> Job {
        let i = match digit {
            b'0'..=b'9' => digit - b'0',
            b'A'..=b'N' => digit - b'A' + 10,
            _ => return Job::Order,
        };
        Job::ALL[usize::from(i)]
    }
}

// A number past the last is Order's.
impl From<usize> for Job {
    fn from(number: usize) -> Job {
        match Job::ALL.get(number) {
            Some(job) => *job,
            None => Job::Order,
        }
    }
}

// A job by its number.
pub fn one_job(g: &mut State, job: usize) {
    do_job(g, Job::from(job));
}

pub(crate) fn do_job(g: &mut State, job: Job) {
    match job {
        Job::Read => job_read(g),
        Job::LunOut => job_lun_out(g),
        Job::Out => job_out(g),
        Job::Program => job_program(g),
        Job::Erase => job_erase(g),
        Job::LunStatus => job_lun_status(g),
        Job::Status => job_status(g),
        Job::Id => job_id(g),
        Job::Parameters => job_parameters(g),
        Job::Get => job_get(g),
        Job::Set => job_set(g),
        Job::Low => job_low(g),
        Job::Reset => put_reset(g),
        Job::Finish => job_finish(g),
        Job::Back => job_back(g),
        Job::Twice => job_twice(g),
        Job::Copy => job_copy(g),
        Job::CopyRead => job_copy_read(g),
        Job::CopyWrite => job_copy_write(g),
        Job::GiveUp => job_give_up(g),
        Job::Poll => job_poll(g),
        Job::PollOther => job_poll_other(g),
        Job::Page => job_page(g),
        Job::Bare => job_bare(g),
        Job::Order => job_order(g),
    }
}

// The mix of jobs of each kind of trace: 26 jobs, a digit each. Noise has none.
fn mix(kind: TraceKind) -> &'static [u8] {
    match kind {
        TraceKind::Whole | TraceKind::Bad => b"0012333456789AEFGGIJKLMNOO",
        TraceKind::Mixed => b"000112333445556EGGHIKLMNOO",
        TraceKind::Wrong => b"0012333456789AAEGGIJKLMNOO",
        TraceKind::Guarded => b"333444BBBB650EACGGIIKLMNOO",
        TraceKind::Ends => b"011223337789AE52GGGJKLMNOO",
        TraceKind::Features => b"99AAAA33301E2C45GGHJKLMNOO",
        TraceKind::Early => b"01233455667789ADGHIJKLMNOO",
        TraceKind::Spoiled | TraceKind::Short => b"0012333456789AECGGIJKLMNOO",
        TraceKind::Edges => b"001122334455789AGHIJKLMNOO",
        TraceKind::Busy => b"001122334566789AGHIJKLMNOO",
        TraceKind::Counts => b"333344EEFFFF560EGGHIKLMNOO",
        TraceKind::Long => b"0123456789ABCDEFGHIJKLMNOO",
        TraceKind::Polling => b"KKKKKKKKKLLLMMMNN03456EGOK",
        TraceKind::NearNoise | TraceKind::Noise => b"",
    }
}

// A job of a kind of trace.
pub fn drawn_job(g: &mut State, kind: TraceKind) -> Job {
    mix(kind)
        .get(g.below(26))
        .map_or(Job::Order, |digit| Job::of(*digit))
}
