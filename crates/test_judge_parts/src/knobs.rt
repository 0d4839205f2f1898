// The kinds of traces and their knobs, as judge/generate.c has them.

#[derive(Clone, Copy, PartialEq, Eq)]
pub enum TraceKind {
    // whole jobs
    Whole,
    // LUNs mixed
    Mixed,
    // a wrong cycle
    Wrong,
    // protect line
    Guarded,
    // ends
    Ends,
    // features
    Features,
    // bad records
    Bad,
    // near noise
    NearNoise,
    // noise
    Noise,
    // before the first FFh
    Early,
    // spoiled records and lengths
    Spoiled,
    // short reply rooms
    Short,
    // edges
    Edges,
    // busy LUNs
    Busy,
    // counts and bad blocks
    Counts,
    // all of it, in long traces
    Long,
    // polling
    Polling,
}

impl TraceKind {
    // In the order of their numbers.
    pub const ALL: [TraceKind; 17] = [
        TraceKind::Whole,
        TraceKind::Mixed,
        TraceKind::Wrong,
        TraceKind::Guarded,
        TraceKind::Ends,
        TraceKind::Features,
        TraceKind::Bad,
        TraceKind::NearNoise,
        TraceKind::Noise,
        TraceKind::Early,
        TraceKind::Spoiled,
        TraceKind::Short,
        TraceKind::Edges,
        TraceKind::Busy,
        TraceKind::Counts,
        TraceKind::Long,
        TraceKind::Polling,
    ];
}

// A number past the last is the first kind's.
impl From<usize> for TraceKind {
    fn from(number: usize) -> TraceKind {
        match TraceKind::ALL.get(number) {
            Some(kind) => *kind,
            None => TraceKind::Whole,
        }
    }
}

// How a kind of trace is made. 'one in n' is never for n = 0.
#[derive(Clone, Copy)]
pub struct Knobs {
    // traces of a line
    pub traces: usize,
    // records of a trace, about
    pub records: usize,
    // longest batch between two looks at the rest
    pub step: usize,
    // a LUN is finished before a job names it
    pub care: bool,
    // a finish event before one in n cycles
    pub sprinkle: usize,
    // one in n addresses is at or past an edge
    pub edge: usize,
    // few rows, so that counts fill up
    pub spot: bool,
    // one in n counts of data goes past the end
    pub past: usize,
    // one in n ECh reads is long
    pub long: usize,
    // a bad record before one in n cycles
    pub bad: usize,
    // a protect event before one in n cycles
    pub guard: usize,
    // FFh before one in n cycles
    pub reset: usize,
    // one in n batches first has too little room
    pub short: usize,
    // one in n batches has an odd byte
    pub odd: usize,
    // one in n jobs has a wrong cycle
    pub wrong: usize,
    // a spoiled event after one in n batches
    pub spoil: usize,
}

// traces, records, step, care, sprinkle, edge, spot, past, long, bad, guard, reset, short, odd, wrong, spoil
fn knob_row(kind: TraceKind) -> [usize; 16] {
    match kind {
        TraceKind::Whole => [8, 900, 12, 1, 0, 0, 0, 16, 8, 0, 0, 0, 0, 0, 0, 0],
        TraceKind::Mixed => [8, 900, 12, 1, 6, 60, 0, 24, 24, 0, 0, 0, 0, 0, 0, 0],
        TraceKind::Wrong => [8, 900, 12, 1, 24, 30, 0, 12, 24, 0, 0, 0, 0, 64, 1, 0],
        TraceKind::Guarded => [8, 900, 12, 1, 12, 40, 0, 24, 24, 0, 12, 0, 0, 0, 6, 0],
        TraceKind::Ends => [8, 900, 6, 1, 40, 20, 0, 2, 3, 0, 0, 0, 0, 0, 0, 0],
        TraceKind::Features => [8, 900, 12, 1, 24, 40, 1, 24, 24, 0, 0, 200, 0, 0, 8, 0],
        TraceKind::Bad => [8, 900, 12, 1, 24, 40, 0, 24, 24, 6, 80, 0, 0, 3, 12, 0],
        TraceKind::NearNoise => [6, 900, 12, 0, 0, 0, 0, 0, 0, 0, 0, 0, 0, 0, 0, 0],
        TraceKind::Noise => [6, 900, 12, 0, 0, 0, 0, 0, 0, 0, 0, 0, 0, 8, 0, 0],
        TraceKind::Early => [40, 60, 6, 1, 12, 20, 0, 8, 0, 20, 20, 0, 0, 12, 4, 0],
        TraceKind::Spoiled => [8, 800, 6, 1, 12, 30, 0, 12, 12, 0, 0, 0, 0, 0, 6, 2],
        TraceKind::Short => [8, 800, 9, 1, 12, 30, 0, 12, 12, 30, 0, 0, 2, 4, 6, 0],
        TraceKind::Edges => [8, 900, 12, 1, 16, 2, 0, 12, 24, 0, 0, 0, 0, 0, 0, 0],
        TraceKind::Busy => [8, 900, 12, 0, 9, 20, 0, 12, 24, 0, 60, 200, 0, 0, 6, 0],
        TraceKind::Counts => [8, 900, 12, 1, 16, 40, 1, 24, 0, 0, 0, 0, 0, 0, 20, 0],
        TraceKind::Long => [2, 4000, 2048, 0, 6, 12, 1, 8, 8, 24, 40, 400, 2, 2, 4, 1],
        TraceKind::Polling => [8, 900, 6, 1, 16, 40, 0, 8, 12, 60, 80, 400, 0, 0, 16, 0],
    }
}

impl Knobs {
    // The knobs of a kind of trace.
    pub fn of(kind: TraceKind) -> Knobs {
        let [
            traces,
            records,
            step,
            care,
            sprinkle,
            edge,
            spot,
            past,
            long,
            bad,
            guard,
            reset,
            short,
            odd,
            wrong,
            spoil,
        ] = knob_row(kind);
        Knobs {
            traces,
            records,
            step,
            care: care == 1,
            sprinkle,
            edge,
            spot: spot == 1,
            past,
            long,
            bad,
            guard,
            reset,
            short,
            odd,
            wrong,
            spoil,
        }
    }
}
