// Runs stored streams, each through a session of its own: for each file that its arguments name, the name and then its lines.
// A stream is read whole and then cut into its messages.
#![tactic(auto)]

ghost use Rattle.std.specs.Prelude.{◌≤◌, length};

use replay::Run;
use stream::End;

// A stream has fewer bytes than this: one that fills the room is rejected.
const ROOM: usize = 131072;

// How many bytes the next message of a stream has: all that are left, if those are fewer.
fn message_len(left: &[u8]) -> usize
    ensures { result ≤ length left.now }
{
    let head = left.len().min(8);
    stream::extent(&left[..head]).min(left.len())
}

// Writes to standard output. What can't be written is left out.
fn put(rt: &HostRuntime, bytes: &[u8]) {
    let _ = files::write_all(&mut rt.stdout(), bytes);
}

// The last line. `runner` has one like it, but asks whether it could be written.
fn print_end(rt: &HostRuntime, end: End) {
    let mut text = [0u8; 128];
    let n = line_text::put_end(&mut text, end);
    put(rt, &text[..n]);
}

// Passes the bytes of a message on and prints its line. Answers the end of the run, where it is over.
fn take_turn(rt: &HostRuntime, index: u64, run: &mut Run, msg: &[u8]) -> Option<End> {
    let mut text = [0u8; 128];
    let turned = run.turn(index, msg, &mut text);
    put(rt, &text[..turned.count]);
    turned.end
}

// Turn after turn. Each but the last takes a byte at least, so that there are no more of them than bytes, and one.
fn serve(rt: &HostRuntime, all: &[u8]) {
    let mut run = Run::new();
    let mut left = all;
    for index in 0..=all.len() {
        let (msg, rest) = left.split_at(message_len(left));
        if let Some(end) = take_turn(rt, index as u64, &mut run, msg) {
            return print_end(rt, end);
        }
        left = rest;
    }
}

// Prints a file's name and then runs its stream. A stream that fills the room may have been cut, so it is rejected, and its name is not printed.
fn run_named(rt: &HostRuntime, name: &[u8], all: &[u8]) {
    if all.len() == ROOM {
        let _ = rt.eprintln("stream too long");
        return;
    }
    put(rt, name);
    put(rt, b"\n");
    serve(rt, all);
}

fn main(rt: HostRuntime) {
    let mut room = [0u8; ROOM];
    for i in 1..usize::MAX {
        let mut name = [0u8; 4096];
        let Some(n) = files::argument(&rt, i, &mut name) else {
            return;
        };
        if let Some(count) = files::read_file(&rt, &name[..n], &mut room) {
            run_named(&rt, &name[..n], &room[..count]);
        }
    }
}
