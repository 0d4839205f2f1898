// The trace that is made: records of two bytes, a kind and a value.
ghost use Rattle.std.specs.Prelude.{◌≡◌, ◌+◌, ◌<◌, ◌≤◌, ◌↔◌, IsTrue, take, slice_index, slice_set};
ghost use Rattle.test_judge_parts.specs.declared.trace.TheConstants.{ROOM};

pub const ROOM: usize = 8192;

#[derive(Clone, Copy)]
pub struct Trace {
    bytes: [u8; ROOM],
    len: usize,
    ghost fits: { len ≤ ROOM },
}

impl Trace {
    pub fn new() -> Trace
        ensures { result.len ≡ 0 }
    {
        Trace {
            bytes: [0; ROOM],
            len: 0,
        }
    }

    pub fn clear(&mut self)
        ensures { self.new.len ≡ 0 }
    {
        self.len = 0;
    }

    // In bytes.
    pub fn len(&self) -> usize
        ensures { result ≡ self.now.len }
    {
        self.len
    }

    pub fn records(&self) -> &[u8]
        ensures { result.now ≡ take self.now.len self.now.bytes }
    {
        &self.bytes[..self.len]
    }

    pub fn has_room(&self) -> bool
        ensures { IsTrue result ↔ self.now.len + 2 ≤ ROOM }
    {
        self.len + 2 <= ROOM
    }

    // One record more, where there is room for it.
    pub fn put(&mut self, kind: u8, value: u8)
        ensures len { self.old.len + 2 ≤ ROOM → self.new.len ≡ self.old.len + 2 }
        ensures bytes { self.old.len + 2 ≤ ROOM → self.new.bytes
            ≡ slice_set (slice_set self.old.bytes self.old.len kind) (self.old.len + 1) value }
        ensures full { ROOM < self.old.len + 2 → self.new ≡ self.old }
    {
        if self.has_room() {
            self.bytes[self.len] = kind;
            self.bytes[self.len + 1] = value;
            self.len += 2;
        }
    }

    // The byte at a place: 0 past the end, where nothing is stored.
    pub fn get(&self, at: usize) -> u8
        ensures { result ≡ slice_index self.now.bytes at }
    {
        if at < ROOM { self.bytes[at] } else { 0 }
    }

    pub fn set(&mut self, at: usize, byte: u8)
        ensures len { self.new.len ≡ self.old.len }
        ensures bytes { self.new.bytes ≡ slice_set self.old.bytes at byte }
    {
        if at < ROOM {
            self.bytes[at] = byte;
        }
    }

    // Whether a whole record stands at byte 'at'.
    fn has_record(&self, at: usize) -> bool
        ensures { IsTrue result ↔ at + 2 ≤ self.now.len }
    {
        2 <= self.len && at <= self.len - 2
    }

    pub fn remove(&mut self, at: usize)
        ensures { self.new.len ≤ self.old.len }
    {
        if self.has_record(at) {
            self.bytes.copy_within(at + 2..self.len, at);
            self.len -= 2;
        }
    }

    // The last record moves to byte 'at', the others make room.
    pub fn move_back(&mut self, at: usize)
        ensures { self.new.len ≡ self.old.len }
    {
        if self.has_record(at) {
            self.bytes[at..self.len].rotate_right(2);
        }
    }
}
