// Files by folder and name. Each function that fails says so on standard error, in a line that names the file.
ghost use Rattle.std.specs.Prelude.{◌≤◌, length, IfOk};

use nib_print::bytes::Bytes;
use nib_print::pen::{Told, complain_of, failed};
use std::fs;
use std::fs::{File, OpenOptions};
use std::io::{Error, ErrorKind, Read, Write};

// The system's number of 'File name too long'.
const ENAMETOOLONG: i32 = 36;

// A path. One byte too many is left out, and a path that is full is refused by whoever opens it.
pub type Path = Bytes<4096>;

// DIR/NAME.
pub fn join(dir: &[u8], name: &[u8]) -> Path {
    let mut path = Bytes::new();
    path.extend(dir);
    path.push(b'/');
    path.extend(name);
    path
}

// A path as text: std opens no other. One that is too long for the system is told so, whatever its bytes.
pub fn text_of(path: &[u8]) -> Result<&str, Error> {
    if 4096 <= path.len() {
        return Err(Error::from_raw_os_error(ENAMETOOLONG));
    }
    std::str::from_utf8(path).map_err(|_| Error::from(ErrorKind::InvalidFilename))
}

pub fn open(rt: HostRuntime, path: &[u8]) -> Result<File, Error> {
    File::open(&rt, text_of(path)?)
}

fn complain_of_length(rt: HostRuntime, path: &[u8], got: usize, due: usize) -> Told {
    let told = complain_of(rt, path, b": has ", got, b" bytes, and should have ");
    let _ = eprintln!(rt; "{due}");
    told
}

// Reads until the buffer is full, the input ends or a read fails, and returns how many bytes came, which `read_exact` does not say. A step is what a read gave.
pub fn read_full<R: Read>(input: &mut R, buf: &mut [u8]) -> usize
    ensures { result ≤ length buf.new }
{
    let mut at = 0;
    for _ in 0..u64::MAX {
        if at >= buf.len() {
            break;
        }
        match input.read(&mut buf[at..]) {
            Ok(0) | Err(_) => break,
            Ok(n) => at += n,
        }
    }
    at
}

// Whether a file has one byte more than was due.
pub fn one_more<R: Read>(input: &mut R) -> Result<bool, Error> {
    let mut more = [0u8; 1];
    let n = input.read(&mut more)?;
    Ok(0 < n)
}

// How many bytes came, and whether there are more behind them.
pub fn read_and_more<R: Read>(input: &mut R, whole: &mut [u8]) -> Result<(usize, bool), Error>
    ensures { IfOk result (λ read. read.0 ≤ length whole.new) }
{
    let n = read_full(input, whole);
    let more = one_more(input)?;
    Ok((n, more))
}

// An input into a slice that holds it. One that is longer is refused in words that name its kind and what holds more.
pub fn read_input<'a, R: Read>(
    rt: HostRuntime,
    input: &mut R,
    whole: &'a mut [u8],
    kind: &[u8],
    instead: &[u8],
) -> Result<&'a [u8], Told> {
    match read_and_more(input, whole) {
        Err(e) => Err(failed(rt, b"standard input", &e)),
        Ok((n, false)) => Ok(&whole[..n]),
        Ok(_) => Err(complain_of(rt, b"standard input", kind, whole.len(), instead)),
    }
}

fn read_open(rt: HostRuntime, path: &[u8], dst: &mut [u8]) -> Result<(usize, bool), Error>
    ensures { IfOk result (λ read. read.0 ≤ length dst.new) }
{
    let mut file = open(rt, path)?;
    read_and_more(&mut file, dst)
}

// As much of a file as there is room for.
pub fn read_front<'a>(rt: HostRuntime, path: &[u8], room: &'a mut [u8]) -> Result<&'a [u8], Told> {
    match read_open(rt, path, room) {
        Ok((n, _)) => Ok(&room[..n]),
        Err(e) => Err(failed(rt, path, &e)),
    }
}

// The first `due` bytes of `dst` become the file, which has just so many.
pub fn read_whole(
    rt: HostRuntime,
    dir: &[u8],
    name: &[u8],
    dst: &mut [u8],
    due: usize,
) -> Result<(), Told> {
    let joined = join(dir, name);
    let path = joined.as_slice();
    let m = due.min(dst.len());
    match read_open(rt, path, &mut dst[..m]) {
        Err(e) => Err(failed(rt, path, &e)),
        Ok((got, _)) if got < due => Err(complain_of_length(rt, path, got, due)),
        Ok((_, false)) => Ok(()),
        Ok(_) => Err(complain_of(
            rt,
            path,
            b": has more than the ",
            due,
            b" bytes that it should have\n",
        )),
    }
}

fn unlink(rt: HostRuntime, path: &[u8]) {
    if let Ok(text) = text_of(path) {
        let _ = fs::remove_file(&rt, text);
    }
}

// A new file, whose name must not be taken; or, where `over`, one that is written over if it is there.
fn opened(rt: HostRuntime, path: &[u8], over: bool) -> Result<File, Error> {
    OpenOptions::new()
        .write(true)
        .create(over)
        .truncate(over)
        .create_new(!over)
        .open(&rt, text_of(path)?)
}

fn write_open(mut file: File, src: &[u8]) -> Result<(), Error> {
    file.write_all(src)?;
    file.sync_all()
}

// Writes and closes; what is not written whole is taken away again.
fn write(rt: HostRuntime, dir: &[u8], name: &[u8], src: &[u8], over: bool) -> Result<(), Told> {
    let joined = join(dir, name);
    let path = joined.as_slice();
    match opened(rt, path, over) {
        Err(e) => Err(failed(rt, path, &e)),
        Ok(file) => write_open(file, src).map_err(|e| {
            let told = failed(rt, path, &e);
            unlink(rt, path);
            told
        }),
    }
}

// A new file, whose name must not be taken.
pub fn create(rt: HostRuntime, dir: &[u8], name: &[u8], src: &[u8]) -> Result<(), Told> {
    write(rt, dir, name, src, false)
}

// A file beside the one that is to be replaced; one of an earlier run that was cut off is written over.
pub fn write_beside(rt: HostRuntime, dir: &[u8], name: &[u8], src: &[u8]) -> Result<(), Told> {
    write(rt, dir, name, src, true)
}

pub fn remove(rt: HostRuntime, dir: &[u8], name: &[u8]) {
    let path = join(dir, name);
    unlink(rt, path.as_slice());
}

fn renamed(rt: HostRuntime, old: &[u8], new: &[u8]) -> Result<(), Error> {
    fs::rename(&rt, text_of(old)?, text_of(new)?)
}

// The file takes the other name, and what had that name is gone.
pub fn rename(rt: HostRuntime, dir: &[u8], from: &[u8], to: &[u8]) -> Result<(), Told> {
    let old = join(dir, from);
    let new = join(dir, to);
    renamed(rt, old.as_slice(), new.as_slice()).map_err(|e| failed(rt, new.as_slice(), &e))
}
