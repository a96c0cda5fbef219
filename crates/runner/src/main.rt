// Runs the messages of standard input through a session, and prints a line for each: document 01's runner.
// It reads as it goes, and holds no more than one message at a time.
#![tactic(auto)]

ghost use Rattle.std.specs.Prelude.{◌≤◌, length};
ghost use Rattle.files.specs.Counts.{IsPrefixLen};

use replay::Run;
use std::io;
use std::io::Read;
use stream::End;

// Standard input. A read that fails is told of; the input then ends there.
#[derive(Clone, Copy)]
struct Messages<'a> {
    rt: &'a HostRuntime,
}

impl Read for Messages<'_> {
    fn read(&mut self, buf: &mut [u8]) -> io::Result<usize> {
        let count = self.rt.stdin().read(buf);
        if count.is_err() {
            let _ = self.rt.eprintln("read error");
        }
        count
    }
}

// Reads the next message: its header first, and then as many bytes more as that asks for.
fn read_message(from: &mut Messages<'_>, msg: &mut [u8]) -> usize
    requires { 65536 ≤ length msg.old }
    ensures { IsPrefixLen result msg.new }
{
    let head = files::read_full(from, &mut msg[..8]);
    let whole = stream::extent(&msg[..head]);
    head + files::read_full(from, &mut msg[head..whole])
}

// The last line.
fn print_end(rt: &HostRuntime, end: End) -> io::Result<()> {
    let mut text = [0u8; 128];
    let n = line_text::put_end(&mut text, end);
    files::write_all(&mut rt.stdout(), &text[..n])
}

// Reads the next message, passes it on and prints its line. Answers the end of the run, where it is over.
fn take_turn(rt: &HostRuntime, index: u64, run: &mut Run, msg: &mut [u8]) -> io::Result<Option<End>>
    requires { 65536 ≤ length msg.old }
{
    let mut text = [0u8; 128];
    let n = read_message(&mut Messages { rt }, msg);
    let turned = run.turn(index, &msg[..n], &mut text);
    files::write_all(&mut rt.stdout(), &text[..turned.count])?;
    Ok(turned.end)
}

// Turn after turn, over messages of 65,536 bytes at most. A proved loop has to end, and nothing says that an input does: this one ends after as many
// messages as an index can count.
fn serve(rt: &HostRuntime) -> io::Result<End> {
    let mut msg = [0u8; 65536];
    let mut run = Run::new();
    for index in 0..u64::MAX {
        if let Some(end) = take_turn(rt, index, &mut run, &mut msg)? {
            return Ok(end);
        }
    }
    Ok(End::Open)
}

fn serve_all(rt: &HostRuntime) -> io::Result<()> {
    let end = serve(rt)?;
    print_end(rt, end)
}

// A line that can't be written ends the run, and is told of.
fn main(rt: HostRuntime) {
    if serve_all(&rt).is_err() {
        let _ = rt.eprintln("write error");
    }
}
