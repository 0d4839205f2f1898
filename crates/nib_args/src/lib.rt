// Which command the arguments name, and what it may do to files.
#![tactic(auto)]

ghost use Rattle.std.specs.Prelude.{◌≡◌};
ghost use Rattle.nib_args.specs.Asked.{same_bytes, alone_of, dashed, named, with_one_of, with_two_of, asked_of, may_of};

#[derive(Clone, Copy)]
pub enum Asked {
    Demo,
    New,
    // with a page file
    NewFrom,
    Run,
    // data in a row told in one line
    Explain,
    // each event in a line of its own
    ExplainEach,
    // a text with expectations
    Test,
    // a page of the array
    Dump,
    // of two folders
    Diff,
    // text to trace
    Text,
    // with jobs on a part
    TextOn,
    // trace to text
    Back,
    // a trace as jobs
    Jobs,
    // on a part
    JobsOn,
    Page,
    // an answer to ECh
    Check,
    Parts,
    Version,
    Help,
}

// What a command may do to a part folder.
#[derive(Clone, Copy)]
pub struct May {
    // makes one
    pub make: bool,
    // puts a new array, counts and registers in the place of the old
    pub store: bool,
}

pub fn is_word(s: &[u8], w: &[u8]) -> bool
    ensures { result ≡ same_bytes s.now w.now }
{
    s == w
}

// A word by itself.
pub fn alone(w: &[u8]) -> Option<Asked>
    ensures { result ≡ alone_of w.now }
{
    match w {
        b"demo" => Some(Asked::Demo),
        b"text" => Some(Asked::Text),
        b"jobs" => Some(Asked::Jobs),
        b"parts" => Some(Asked::Parts),
        b"version" => Some(Asked::Version),
        b"help" | b"--help" => Some(Asked::Help),
        _ => None,
    }
}

// An argument that begins with a dash is no folder and no file.
pub fn dashed(v: &[u8]) -> bool
    ensures { result ≡ dashed v.now }
{
    v.first() == Some(&b'-')
}

// A command that takes a folder or a file.
pub fn named(w: &[u8]) -> Option<Asked>
    ensures { result ≡ named w.now }
{
    match w {
        b"new" => Some(Asked::New),
        b"run" => Some(Asked::Run),
        b"explain" => Some(Asked::Explain),
        b"test" => Some(Asked::Test),
        b"text" => Some(Asked::TextOn),
        b"jobs" => Some(Asked::JobsOn),
        b"page" => Some(Asked::Page),
        b"check" => Some(Asked::Check),
        _ => None,
    }
}

// A word with another after it: a folder, a file, -d or --help.
pub fn with_one(w: &[u8], v: &[u8]) -> Option<Asked>
    ensures { result ≡ with_one_of w.now v.now }
{
    if is_word(v, b"--help") {
        Some(Asked::Help)
    } else if is_word(w, b"text") && is_word(v, b"-d") {
        Some(Asked::Back)
    } else if dashed(v) {
        None
    } else {
        named(w)
    }
}

// A word with two others after it: a folder and a part or a folder, or -v and a folder.
pub fn with_two(w: &[u8], v: &[u8], u: &[u8]) -> Option<Asked>
    ensures { result ≡ with_two_of w.now v.now u.now }
{
    match w {
        _ if is_word(u, b"--help") => Some(Asked::Help),
        _ if dashed(u) => None,
        b"explain" if is_word(v, b"-v") => Some(Asked::ExplainEach),
        _ if dashed(v) => None,
        b"new" => Some(Asked::NewFrom),
        b"diff" => Some(Asked::Diff),
        _ => None,
    }
}

// The command that the arguments name, where they name one. `n` arguments were given, the program's own name among them; the
// first three after it are `w`, `v` and `u`.
pub fn asked_of(n: usize, w: &[u8], v: &[u8], u: &[u8]) -> Option<Asked>
    ensures { result ≡ asked_of n w.now v.now u.now }
{
    match n {
        2 => alone(w),
        3 => with_one(w, v),
        4 => with_two(w, v, u),
        6 if is_word(w, b"dump") && !dashed(v) => Some(Asked::Dump),
        _ => None,
    }
}

// What the command may do to files.
pub fn allowed(asked: Option<Asked>) -> May
    ensures { result ≡ may_of asked }
{
    May {
        make: matches!(asked, Some(Asked::New | Asked::NewFrom)),
        store: matches!(asked, Some(Asked::Run | Asked::Test)),
    }
}
