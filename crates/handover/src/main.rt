// Runs stored scripts, each a list of calls on a session of its own, and prints for each step its letter, the answer's number, and its count or
// offset. A step is a letter, a u32, and as many bytes:
//   F settings   a session begins fresh          S settings   settings for the images that are read from now on (36 bytes, as in C)
//   R vCPU       is marked ready                 E vCPU       enters, with a register block of zeros
//   M message    is taken                        W room       the image is written, into so many bytes
//   L image      is read                         A            the image that was written last is read
//   C image      is compared with the image that was written last
// A refused image leaves the session and its words as they were, and the script goes on with them.
#![tactic(auto)]

ghost use Rattle.std.specs.Prelude.{◌<◌, IfSome, length};

use kvmi::{Answer, Settings};
use page_words::{PAGE_WORDS, PageWords};
use session::{Done, Session};
use std::fmt;
use std::fmt::{Display, Formatter};
use store::words::{VCPU_WORDS, VcpuWords};

// What a step asks for.
#[derive(Clone, Copy)]
enum Step<'a> {
    Begin(Settings),
    Settle(Settings),
    Ready(u16),
    Enter(u16),
    Take(&'a [u8]),
    Write(usize),
    Read(&'a [u8]),
    ReadAgain,
    Compare(&'a [u8]),
}

// What a step is told: a call's answer, or whether an image is the one that was written last.
#[derive(Clone, Copy)]
enum Told {
    Answer(Answer),
    Same(bool),
}

impl Display for Told {
    fn fmt<W: fmt::Write>(&self, f: &mut Formatter<W>) -> fmt::Result {
        match *self {
            Told::Answer(answer) => {
                let number = stream::answer_number(answer);
                let place = place_of(answer);
                write!(f, "{number} {place}")
            }
            Told::Same(true) => write!(f, "same"),
            Told::Same(false) => write!(f, "differs"),
        }
    }
}

// The offset of a refused image, and the count of any other answer.
fn place_of(answer: Answer) -> usize {
    match answer {
        Answer::BadForm { offset } | Answer::Forbidden { offset } => offset,
        _ => stream::answer_count(answer),
    }
}

// The settings in a step's bytes; what is not all there is 0.
fn settings_of(arg: &[u8]) -> Settings {
    Settings {
        vcpus: wire::load(arg, 0),
        views: wire::load(arg, 4),
        commands: wire::load(arg, 8),
        events: wire::load(arg, 12),
        tsc: wire::load(arg, 16),
        singlestep: wire::byte(arg, 24),
        vmfunc: wire::byte(arg, 25),
        eptp: wire::byte(arg, 26),
        ve: wire::byte(arg, 27),
        spp: wire::byte(arg, 28),
        descriptors: wire::byte(arg, 29),
        breakpoints: wire::byte(arg, 30),
        execute_only: wire::byte(arg, 31),
        revision: wire::load(arg, 32),
    }
}

// The step with a letter and its bytes, if there is one.
fn step_of(letter: u8, arg: &[u8]) -> Option<Step<'_>> {
    match letter {
        b'F' => Some(Step::Begin(settings_of(arg))),
        b'S' => Some(Step::Settle(settings_of(arg))),
        b'R' => Some(Step::Ready(wire::load(arg, 0))),
        b'E' => Some(Step::Enter(wire::load(arg, 0))),
        b'M' => Some(Step::Take(arg)),
        b'W' => Some(Step::Write(wire::load::<u32>(arg, 0) as usize)),
        b'L' => Some(Step::Read(arg)),
        b'A' => Some(Step::ReadAgain),
        b'C' => Some(Step::Compare(arg)),
        _ => None,
    }
}

// The first step of a script: its letter, its bytes, and the steps behind it; none where it is cut.
fn split_step(script: &[u8]) -> Option<(u8, &[u8], &[u8])>
    ensures { IfSome result (λ step. length step.2.now < length script.now) }
{
    let (head, rest) = script.split_first_chunk::<5>()?;
    let size = wire::load::<u32>(head, 1) as usize;
    let (arg, after) = rest.split_at_checked(size)?;
    Some((head[0], arg, after))
}

// What goes from step to step: a session and its words, the guest's memory, the settings for images, and the image that was written last, which has
// `written` bytes at the start of its buffer: the library under test allocates nothing, and an image goes into fixed memory, as a host's does.
#[derive(Drop)]
struct Host {
    session: Session,
    vcpus: VcpuWords,
    pages: PageWords,
    guest: [u8; 16384],
    settings: Settings,
    image: [u8; 65536],
    written: usize,
}

impl Host {
    // A session that is shut, and words and memory of zeros.
    fn new() -> Self {
        let settings = settings_of(b"");
        Host {
            session: Session::shut(settings),
            vcpus: [0; VCPU_WORDS],
            pages: [0; PAGE_WORDS],
            guest: [0; 16384],
            settings,
            image: [0; 65536],
            written: 0,
        }
    }

    // The session after a call goes on.
    fn go_on(&mut self, done: Done) -> Told {
        self.session = done.session;
        Told::Answer(done.answer)
    }

    // An image was read: the session that it makes goes on, or the one that stands.
    fn go_on_if_read(&mut self, done: Done) -> Told {
        if matches!(done.answer, Answer::Handled(_)) {
            return self.go_on(done);
        }
        Told::Answer(done.answer)
    }

    fn enter(&mut self, vcpu: u16) -> Told {
        let block = [0u8; reply::STATE_BYTES];
        let mut out = [0u8; 4112];
        let done = entry::enter(
            self.session,
            &mut self.vcpus,
            &self.pages,
            vcpu,
            &block,
            0,
            &[],
            &mut out,
        );
        self.go_on(done)
    }

    fn take(&mut self, msg: &[u8]) -> Told {
        let mut out = [0u8; 4112];
        let done = message::take(
            self.session,
            &mut self.vcpus,
            &mut self.pages,
            msg,
            &mut out,
            &mut self.guest,
        );
        self.go_on(done)
    }

    // The image is written into the first `room` bytes of its buffer; where it is not, the one that stands there is kept.
    fn write(&mut self, room: usize) -> Told {
        let image = &mut self.image[..];
        let n = room.min(image.len());
        let done = image_writer::write_image(
            self.session,
            &self.vcpus,
            &self.pages,
            &mut image[..n],
        );
        if let Answer::Handled(values) = done.answer {
            self.written = values.count;
        }
        Told::Answer(done.answer)
    }

    fn read(&mut self, image: &[u8]) -> Told {
        let done = image_reader::read_image(self.settings, image, &mut self.vcpus, &mut self.pages);
        self.go_on_if_read(done)
    }

    fn read_again(&mut self) -> Told {
        let n = self.written.min(self.image.len());
        let done = image_reader::read_image(
            self.settings,
            &self.image[..n],
            &mut self.vcpus,
            &mut self.pages,
        );
        self.go_on_if_read(done)
    }

    fn is_written(&self, image: &[u8]) -> bool {
        let n = self.written.min(self.image.len());
        &self.image[..n] == image
    }

    fn step(&mut self, step: Step<'_>) -> Told {
        match step {
            Step::Begin(settings) => {
                self.settings = settings;
                let done = Session::fresh(settings, &mut self.vcpus, &mut self.pages);
                self.go_on(done)
            }
            Step::Settle(settings) => {
                self.settings = settings;
                Told::Answer(kvmi::answers::done())
            }
            Step::Ready(vcpu) => self.go_on(self.session.ready(vcpu)),
            Step::Enter(vcpu) => self.enter(vcpu),
            Step::Take(msg) => self.take(msg),
            Step::Write(room) => self.write(room),
            Step::Read(image) => self.read(image),
            Step::ReadAgain => self.read_again(),
            Step::Compare(image) => Told::Same(self.is_written(image)),
        }
    }
}

// The steps of a script, in order. A line that can't be written is left out.
fn run_script(rt: &HostRuntime, script: &[u8]) {
    let mut host = Host::new();
    let mut rest = script;
    while !rest.is_empty() {
        let Some((letter, arg, after)) = split_step(rest) else {
            let _ = println!(rt; "cut step");
            return;
        };
        let _ = match step_of(letter, arg) {
            Some(step) => {
                let told = host.step(step);
                let letter = char::from(letter);
                println!(rt; "{letter} {told}")
            }
            None => println!(rt; "unknown step"),
        };
        rest = after;
    }
}

// Prints a file's name and then runs its script, of which `script` has all that fits into the room.
fn run_named(rt: &HostRuntime, name: &[u8], script: &[u8]) {
    let _ = files::write_all(&mut rt.stdout(), name);
    let _ = files::write_all(&mut rt.stdout(), b"\n");
    run_script(rt, script);
}

fn main(rt: HostRuntime) {
    let mut room = [0u8; 65536];
    for i in 1..usize::MAX {
        let mut name = [0u8; 4096];
        let Some(n) = files::argument(&rt, i, &mut name) else {
            return;
        };
        if let Some(count) = files::read_file(&rt, &name[..n], &mut room) {
            run_named(&rt, &name[..n], &room[..count]);
        }
    }
}
