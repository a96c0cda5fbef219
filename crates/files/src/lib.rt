// What the programs ask of the system: the stored files that the arguments name, bytes read until a buffer is full, and bytes written. What fails is
// told on standard error.
#![tactic(auto)]

ghost use Rattle.std.specs.Prelude.{IfSome, OnSome, OnOk, take};
ghost use Rattle.std.specs.Str.{IsUtf8};
ghost use Rattle.std.specs.Io.KnownBytes.{Appends, Consumes};
ghost use Rattle.files.specs.Counts.{IsPrefixLen};

use std::env::{Env, FillError};
use std::fs::File;
use std::io::{ErrorKind, Read, Write};
use std::{io, str};

// Puts argument i at the start of buf and answers its length, or 0 where it does not fit. There are no more arguments where it answers nothing.
pub fn argument(rt: &HostRuntime, i: usize, buf: &mut [u8]) -> Option<usize>
    ensures { IfSome result (λ n. IsPrefixLen n buf.new) }
{
    match rt.arg(i, buf) {
        Ok(n) => Some(n),
        Err(FillError::TooLong) => Some(0),
        Err(FillError::NotPresent) => None,
    }
}

// Paths are text: a name that is not has no file.
fn open_read(rt: &HostRuntime, name: &[u8]) -> io::Result<File>
    ensures { OnOk result (IsUtf8 name.now) }
{
    match str::from_utf8(name) {
        Ok(path) => File::open(rt, path),
        Err(_) => Err(io::Error::from(ErrorKind::InvalidFilename)),
    }
}

// Opens the file that has a name, which is text, for reading, or tells why it can't be opened.
pub fn open(rt: &HostRuntime, name: &[u8]) -> Option<File>
    ensures { OnSome result (IsUtf8 name.now) }
{
    match open_read(rt, name) {
        Ok(file) => Some(file),
        Err(e) => {
            fail(rt, name, e);
            None
        }
    }
}

// Writes a line to standard error: a name, a colon, and the system's words for what failed.
fn fail(rt: &HostRuntime, name: &[u8], e: io::Error) {
    let told = rt.stderr();
    let _ = Print::write_all(&told, name);
    let _ = told.print(": ");
    if let Ok(text) = e.to_string(rt.alloc()) {
        let _ = told.print(words_of(text.as_str()));
    }
    let _ = told.print("\n");
}

// An error's text without its number, which stands last, as in `No such file or directory (os error 2)`.
fn words_of(text: &str) -> &str {
    match text.split_once(" (os error ") {
        Some((words, _)) => words,
        None => text,
    }
}

// Reads until buf is full, the input ends or a read fails, and answers how many bytes it put at the start of buf: those that it took of what the
// reader had. On an empty buf it makes no call.
pub fn read_full<R: Read>(from: &mut R, buf: &mut [u8]) -> usize
    ensures counts { IsPrefixLen result buf.new }
    ensures bytes { Consumes (R.remaining from.old) (R.remaining from.new) (take result buf.new) }
{
    // by a count and no slice that shrinks: the count is what is answered
    let mut done = 0;
    while done < buf.len() {
        match from.read(&mut buf[done..]) {
            Ok(n) if n > 0 => done += n,
            _ => break,
        }
    }
    done
}

// Writes all of buf, or fails where a write takes nothing or fails, when some of buf may have been written.
pub fn write_all<W: Write>(to: &mut W, buf: &[u8]) -> io::Result<()>
    ensures { OnOk result (Appends (W.contents to.old) (W.contents to.new) buf.now) }
{
    to.write_all(buf)
}

// Reads the file that has a name into `room`, as far as that goes, and answers how many bytes it put at the start.
// The name is text. A file that can't be opened is reported on standard error.
pub fn read_file(rt: &HostRuntime, name: &[u8], room: &mut [u8]) -> Option<usize>
    ensures text { OnSome result (IsUtf8 name.now) }
    ensures counts { IfSome result (λ n. IsPrefixLen n room.new) }
{
    let mut file = open(rt, name)?;
    let n = read_full(&mut file, room);
    drop(file);
    Some(n)
}
