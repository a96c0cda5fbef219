// The bytes that go out: replies, the pause event and the CMD_ERROR event, and the seq of the next event.
// What is written starts at the front of the output. Where it does not fit nothing is written, and the count is that of all of it.
#![tactic(auto)]

ghost use Rattle.std.specs.Prelude.{◌≡◌, ℕ, List, [], ◌++◌, ◌+◌, ◌≤◌, length};
ghost use Rattle.std.specs.Fn.{FnOnceReturnsAtMut};
ghost use Rattle.wire.specs.Bytes.{le, store};
ghost use Rattle.kvmi.specs.Codes.{is_error};
ghost use Rattle.kvmi.specs.Model.{next_seq};
ghost use Rattle.kvmi.specs.Reply.{reply_bytes, reply_data, answer_bytes, event_bytes, pause_event, command_error_event};
ghost use Rattle.kvmi.specs.Mode.{mode_of_number};
ghost use Rattle.reply.specs.Written.{Written, AnswerWritten};
ghost use Rattle.reply.specs.Off.{is_told, off_bytes, tells, KindWritten};
ghost use Rattle.reply.specs.Contents.{contents_bytes, contents_count, contents_end, Chosen, Picked};
ghost use Rattle.reply.specs.Event.{event_front};

use kvmi::{Handler, ReplyKind, Settings};

// How many bytes a register block has.
pub const STATE_BYTES: usize = 536;

// The data of a reply.
#[derive(Clone, Copy)]
enum Contents {
    Nothing,
    Version,
    VmInfo,
    VcpuInfo,
    // Bytes of guest memory, all inside.
    Memory { from: usize, count: usize },
}

// How many bytes an answer has, and whether it is a CMD_ERROR event, which takes a seq. Both are fields, and no enum: the count is needed whether or
// not a seq was taken.
#[derive(Clone, Copy)]
pub struct Answered {
    pub count: usize,
    pub took_seq: bool,
}

// What is answered, and how: the id, the seq and the code of a command, the reply mode (0: on; 1: off; any other: off, and errors told), and the next
// event's seq. The mode is the number that the session has for it, since C lends the session (`mode` of semblurick_session).
#[derive(Clone, Copy)]
pub struct Answering {
    pub mode: u32,
    pub next: u32,
    pub id: u16,
    pub seq: u32,
    pub code: i32,
}

// The seq after a seq: it wraps to 0.
pub fn next_seq(seq: u32) -> u32
    ensures { result ≡ next_seq seq }
{
    seq.wrapping_add(1)
}

fn is_error(code: i32) -> bool
    ensures { result ≡ is_error code }
{
    code < 0
}

// The bytes of guest memory that VM_READ_PHYSICAL asks for, as many as there are.
fn memory(guest: &[u8], d: &[u8]) -> Contents
    ensures { Picked guest.now d.now result }
{
    let n = guest.len();
    let from = wire::smaller(wire::load::<u64>(d, 0) as usize, n);
    let count = wire::smaller(wire::load::<u64>(d, 8) as usize, n - from);
    Contents::Memory { from, count }
}

// The data of the reply to a command.
fn choose(guest: &[u8], id: u16, code: i32, d: &[u8]) -> Contents
    ensures { Chosen guest.now id code d.now result }
{
    if is_error(code) {
        return Contents::Nothing;
    }
    let Some(row) = kvmi::table::layout(id) else {
        return Contents::Nothing;
    };
    match row.handler {
        Handler::GetVersion => Contents::Version,
        Handler::VmGetInfo => Contents::VmInfo,
        Handler::VmReadPhysical => memory(guest, d),
        Handler::VcpuGetInfo => Contents::VcpuInfo,
        _ => Contents::Nothing,
    }
}

// How many bytes of data that is.
fn count_of(contents: Contents) -> usize
    ensures { result ≡ contents_count contents }
{
    match contents {
        Contents::Nothing => 0,
        Contents::Version => 16,
        Contents::VmInfo => 16,
        Contents::VcpuInfo => 8,
        Contents::Memory { count, .. } => count,
    }
}

// A message's header, at the front.
fn put_header(out: &mut [u8], id: u16, size: usize, seq: u32)
    requires { 8 ≤ length out.old }
    ensures { out.new ≡ store out.old 0 (le 2 id ++ le 2 size ++ le 4 seq) }
{
    wire::store(out, 0, id);
    wire::store(out, 2, (size % 65536) as u16);
    wire::store(out, 4, seq);
}

// GET_VERSION's data: the revision, and the features.
fn put_version(out: &mut [u8], settings: Settings)
    requires { 32 ≤ length out.old }
    ensures { out.new ≡ store out.old 16 (reply_data settings [] 1 []) }
{
    wire::store(out, 16, settings.revision as u64);
    wire::store(out, 24, settings.singlestep);
    wire::store(out, 25, settings.vmfunc);
    wire::store(out, 26, settings.eptp);
    wire::store(out, 27, settings.ve);
    wire::store(out, 28, settings.spp as u32);
}

// VM_GET_INFO's data: the vCPU count.
fn put_vm_info(out: &mut [u8], settings: Settings)
    requires { 32 ≤ length out.old }
    ensures { out.new ≡ store out.old 16 (reply_data settings [] 4 []) }
{
    wire::store(out, 16, settings.vcpus as u64);
    wire::store(out, 24, 0u64);
}

// A reply's data, behind the code.
fn put_contents(out: &mut [u8], settings: Settings, guest: &[u8], contents: Contents)
    requires contents_in_bounds { contents_end contents ≤ length guest.now }
    requires contents_in_bounds_2 { contents_count contents + 16 ≤ length out.old }
    ensures { out.new ≡ store out.old 16 (contents_bytes settings guest.now contents) }
{
    match contents {
        Contents::Nothing => {}
        Contents::Version => put_version(out, settings),
        Contents::VmInfo => put_vm_info(out, settings),
        Contents::VcpuInfo => wire::store(out, 16, settings.tsc),
        Contents::Memory { from, count } => wire::copy(out, 16, &guest[from..from + count]),
    }
}

// The reply to a command, with no data.
fn put_code(out: &mut [u8], id: u16, seq: u32, code: i32) -> usize
    ensures { Written out.old out.new result (reply_bytes id seq code []) }
{
    if 16 <= out.len() {
        put_header(out, id, 8, seq);
        wire::store_code(out, 8, code);
        wire::store(out, 12, 0u32);
    }
    16
}

// The reply to a command, with its data.
fn put_reply(
    out: &mut [u8],
    settings: Settings,
    guest: &[u8],
    id: u16,
    seq: u32,
    code: i32,
    d: &[u8],
) -> usize
    ensures { Written out.old out.new result (reply_bytes id seq code (reply_data settings guest.now id d.now)) }
{
    let contents = choose(guest, id, code, d);
    let count = count_of(contents);
    let total = count + 16;
    if total <= out.len() {
        put_header(out, id, count + 8, seq);
        wire::store_code(out, 8, code);
        wire::store(out, 12, 0u32);
        put_contents(out, settings, guest, contents);
    }
    total
}

// What stands before an event's state block.
fn put_event(out: &mut [u8], size: usize, seq: u32, vcpu: u32, event: u8)
    requires { 16 ≤ length out.old }
    ensures { out.new ≡ store out.old 0 (event_front size seq vcpu event) }
{
    put_header(out, 17, size, seq);
    wire::store(out, 8, 544u16);
    wire::store(out, 10, (vcpu % 65536) as u16);
    wire::store(out, 12, event as u32);
}

// An event of a vCPU, with a state block and the event's own bytes behind it.
pub fn event(out: &mut [u8], seq: u32, vcpu: u32, event: u8, state: &[u8], own: &[u8])
    ensures { out.new ≡ store out.old 0 (event_bytes seq vcpu event state.now own.now) }
{
    let n = state.len();
    let more = own.len();
    if more <= out.len() && n + 16 <= out.len() - more {
        put_event(out, n + more + 8, seq, vcpu, event);
        wire::copy(out, 16, state);
        wire::copy(out, 16 + n, own);
    }
}

// The pause event of a vCPU with a state block: event 2, which has no bytes of its own. Apart from `event`, since the compiler makes more of it so.
pub fn pause_event(out: &mut [u8], seq: u32, vcpu: u32, state: &[u8]) -> usize
    ensures { Written out.old out.new result (pause_event seq vcpu state.now) }
{
    let n = state.len();
    let total = n + 16;
    if total <= out.len() {
        put_event(out, n + 8, seq, vcpu, 2);
        wire::copy(out, 16, state);
    }
    total
}

// The CMD_ERROR event, with the command's code, seq and id.
fn put_command_error(out: &mut [u8], next: u32, code: i32, seq: u32, id: u16) -> usize
    ensures { Written out.old out.new result (command_error_event next code seq id) }
{
    if 568 <= out.len() {
        put_event(out, 560, next, 0, 13);
        wire::fill(out, 16, STATE_BYTES, 0);
        wire::store_code(out, 552, code);
        wire::store(out, 556, seq);
        wire::store(out, 560, id as u64);
    }
    568
}

// The answer while replies are off: where errors are told and this is one, the event that tells it.
fn answer_off(out: &mut [u8], a: Answering) -> Answered
    ensures { AnswerWritten out.old out.new result (off_bytes a.mode a.next a.id a.seq a.code) (is_told a.mode a.code) }
{
    if (a.mode != 1) & is_error(a.code) {
        return Answered {
            count: put_command_error(out, a.next, a.code, a.seq, a.id),
            took_seq: true,
        };
    }
    Answered {
        count: 0,
        took_seq: false,
    }
}

// What is written in answer to a command: its reply, which `put` writes, or while replies are off what tells an error.
fn answer_by<F: FnOnce(&mut [u8]) -> usize>(out: &mut [u8], a: Answering, put: F) -> Answered
    requires { F.IsAlwaysCallable put }
    ensures { (d : List ℕ) → (FnOnceReturnsAtMut F.FnOnce put out.old result.count out.new → Written out.old out.new result.count (reply_bytes a.id a.seq a.code d))
        → AnswerWritten out.old out.new result (answer_bytes (mode_of_number a.mode) a.next a.id a.seq a.code d) (tells (mode_of_number a.mode) a.code) }
{
    if a.mode != 0 {
        return answer_off(out, a);
    }
    Answered {
        count: put(out),
        took_seq: false,
    }
}

// The answer to a command whose reply is a code alone.
pub fn answer_code(out: &mut [u8], a: Answering) -> Answered
    ensures { AnswerWritten out.old out.new result (answer_bytes (mode_of_number a.mode) a.next a.id a.seq a.code []) (tells (mode_of_number a.mode) a.code) }
{
    answer_by(out, a, |out| put_code(out, a.id, a.seq, a.code))
}

// The answer to a command whose reply has data.
fn answer_data(out: &mut [u8], settings: Settings, guest: &[u8], a: Answering, d: &[u8]) -> Answered
    ensures { AnswerWritten out.old out.new result
        (answer_bytes (mode_of_number a.mode) a.next a.id a.seq a.code (reply_data settings guest.now a.id d.now)) (tells (mode_of_number a.mode) a.code) }
{
    answer_by(out, a, |out| {
        put_reply(out, settings, guest, a.id, a.seq, a.code, d)
    })
}

// What is written in answer to a message, by the kind of its reply.
pub fn answer(
    out: &mut [u8],
    settings: Settings,
    guest: &[u8],
    kind: ReplyKind,
    a: Answering,
    d: &[u8],
) -> Answered
    ensures { KindWritten kind (mode_of_number a.mode) a.next a.id a.seq a.code
        (reply_data settings guest.now a.id d.now) out.old out.new result }
{
    match kind {
        ReplyKind::CodeOnly => answer_code(out, a),
        ReplyKind::WithData => answer_data(out, settings, guest, a, d),
        ReplyKind::Silent => Answered {
            count: 0,
            took_seq: false,
        },
    }
}
