// KVMI as the filter speaks it: the types that every layer shares. Ids, events, errors and actions have kvmi.rst's names.
#![tactic(auto)]

pub mod answers;
pub mod bits;
pub mod events;
pub mod marks;
pub mod mode;
pub mod table;

// How many pages a view has, 2^52.
pub const PAGES: u64 = 1 << 52;

// How many views a session can have.
pub const VIEWS: u16 = 8;

// What the host allows and has, fixed for a session. Unsigned integers only: a flag is set where it is not 0.
#[repr(C)]
#[derive(Clone, Copy)]
pub struct Settings {
    pub vcpus: u32,
    pub views: u32,
    // Bit k for the command or the event with number k.
    pub commands: u32,
    pub events: u32,
    pub tsc: u64,
    // The five feature bytes of GET_VERSION.
    pub singlestep: u8,
    pub vmfunc: u8,
    pub eptp: u8,
    pub ve: u8,
    pub spp: u8,
    // Whether descriptor events can be caught, and whether the host has taken breakpoints for itself.
    pub descriptors: u8,
    pub breakpoints: u8,
    // Whether the processor has execute-only pages, access 4.
    pub execute_only: u8,
    // The revision of the protocol, 1 or 2, that GET_VERSION reports. In 2, page access is all or nothing.
    pub revision: u32,
}

// Whether commands are replied to. With ErrorsOnly they are not, and one that fails is told by a CMD_ERROR event.
#[derive(Clone, Copy)]
pub enum ReplyMode {
    On,
    Off,
    ErrorsOnly,
}

// What the host is to do beside sending the bytes. In it, and in `Change`, the fields of every variant stand in one order: a flag, then
// 16, 32 and 64 bits. So a place in memory has one width whatever the variant, and the compiler keeps all of it in registers.
#[derive(Clone, Copy)]
pub enum Signal {
    Quiet,
    Kick { wait: bool, vcpu: u16 },
    Crash { vcpu: u16 },
    Resume(Resumption),
}

// How a vCPU goes on from an event that it was offered: 0 continue or 1 retry, the register's new value, a page fault's rep flag or 0, and the bytes that
// feed the instruction. The action is a number, as in the reply: `apply` and `reply_signal` (specs/Change) take any.
#[derive(Clone, Copy)]
pub struct Resumption {
    pub vcpu: u16,
    pub action: u32,
    pub value: u64,
    pub feed: Feed,
}

// The bytes that feed an instruction whose read a page fault stopped, on a continue: those that the tool supplied, a part of its message, or the guest
// page's, a part of guest memory; where in it they begin, and how many they are. With both numbers in the variants of `Source` that have them a small
// command takes 263 instructions and not 227, counted without the proofs.
#[derive(Clone, Copy)]
pub struct Feed {
    pub at: u64,
    pub length: u32,
    pub source: Source,
}

// Where the bytes of a feed are. A result of the C interface has their numbers, from 0 on in this order.
#[derive(Clone, Copy)]
pub enum Source {
    // None are wanted.
    Unfed,
    Message,
    Guest,
    // They are the guest page's, and the guest has no such page.
    Missing,
}

// The values of answers 0 and 12: what the host is to do, where a command's first padding byte stands that is not zero (its message offset; 0: none),
// and how many bytes were written. The count stands last: a store of its own width ends each answer with values, so that the compiler keeps answers in
// registers. With the signal first a small command takes 14 instructions more.
#[derive(Clone, Copy)]
pub struct Values {
    pub padding: usize,
    pub signal: Signal,
    pub count: usize,
}

// What a host call answers.
#[derive(Clone, Copy)]
pub enum Answer {
    Handled(Values),
    Closing,
    Closed,
    ShortOut,
    BadVcpu,
    BadState,
    Waiting,
    BadSettings,
    BadForm { offset: usize },
    Forbidden { offset: usize },
    Busy,
    NotApplicable,
}

// How many data bytes a message has.
#[derive(Clone, Copy)]
pub enum SizeRule {
    Exactly { bytes: u16 },
    // 16 and as many as its size field says.
    SizeField,
    // At least 8; that 16 follow for each entry that it counts is tested later.
    Entries,
    // At least 16; that it is the size of the reply to the awaited event is tested later.
    ByEvent,
}

// What answers a message that is taken: an error code alone, one with data behind it, or nothing.
#[derive(Clone, Copy)]
pub enum ReplyKind {
    CodeOnly,
    WithData,
    Silent,
}

// Which message it is.
#[derive(Clone, Copy)]
pub enum Handler {
    GetVersion,
    VmCheckCommand,
    VmCheckEvent,
    VmGetInfo,
    VmControlEvents,
    VmReadPhysical,
    VmWritePhysical,
    VcpuGetInfo,
    VcpuPause,
    VcpuControlEvents,
    VcpuControlCr,
    VcpuControlMsr,
    VmSetPageAccess,
    VcpuControlSinglestep,
    VmControlCmdResponse,
    EventReply,
}

// A row of the table of messages.
#[derive(Clone, Copy)]
pub struct Layout {
    pub size: SizeRule,
    pub reply: ReplyKind,
    pub handler: Handler,
}

// The switch that an event asks for before it is sent: the VM's, the vCPU's, or the vCPU's and that of the register, or a guard on the page, that its
// bytes name.
#[derive(Clone, Copy)]
pub enum EventSwitch {
    // Event 0, an entry without an event: it asks for no switch, and is not sent.
    NoEvent,
    OfVm,
    OfVcpu,
    OfCr,
    OfMsr,
    OfPage,
}

// What the reply to an event has behind its first 16 data bytes: nothing, the new value of a register, or the context of a page fault.
#[derive(Clone, Copy)]
pub enum ReplyForm {
    Plain,
    NewValue,
    Context,
}

// A row of the table of events: the switch that it asks for, or None if an entry is not offered it; whether its reply may be a retry and what form it has;
// how many bytes it has of its own behind the state block, and how many data bytes its reply has.
#[derive(Clone, Copy)]
pub struct EventRow {
    pub switch: Option<EventSwitch>,
    pub form: ReplyForm,
    pub retry: bool,
    pub own: usize,
    pub reply: usize,
}

// What is kept of a page fault; of any other event all three are 0.
#[derive(Clone, Copy)]
pub struct Fault {
    pub gva: u64,
    pub gpa: u64,
    pub access: u64,
}

// An event that was sent and whose reply has not come.
#[derive(Clone, Copy)]
pub struct Awaited {
    pub event: u64,
    pub seq: u64,
    pub fault: Fault,
}

// What is pending of a vCPU: how many pauses are queued, and the event whose reply it awaits.
#[derive(Clone, Copy)]
pub struct Pending {
    pub pauses: u64,
    pub awaited: Option<Awaited>,
}

// What the tests of a message ask of the session: the reply mode, how many bytes of guest memory are lent, and for the vCPU that the message names its
// ready mark and what is pending of it.
#[derive(Clone, Copy)]
pub struct Facts {
    pub mode: ReplyMode,
    pub guest: usize,
    pub ready: bool,
    pub pending: Pending,
}

// What a message that passes all tests changes. The fields are in the order that stands at `Signal`.
#[derive(Clone, Copy)]
pub enum Change {
    Nothing,
    SetVmEvent {
        on: bool,
        event: u16,
    },
    WritePhysical {
        gpa: u64,
    },
    QueuePause {
        wait: bool,
        vcpu: u16,
    },
    SetVcpuEvent {
        on: bool,
        vcpu: u16,
        event: u32,
    },
    SetCr {
        on: bool,
        vcpu: u16,
        cr: u32,
    },
    SetMsr {
        on: bool,
        vcpu: u16,
        msr: u32,
    },
    SetPages {
        view: u16,
        count: u16,
    },
    SetSinglestep {
        on: bool,
        vcpu: u16,
    },
    SetReplies {
        now: bool,
        mode: ReplyMode,
    },
    // An event's reply is taken: whether its continue or retry is signalled, what it says, and the bytes that it feeds.
    EndWait {
        resumes: bool,
        vcpu: u16,
        action: u32,
        value: u64,
        feed: Feed,
    },
}

// What the tests say of a message: it closes the session, it fails with an error code, or it makes one change.
#[derive(Clone, Copy)]
pub enum Verdict {
    Closes,
    Fails(i32),
    Does(Change),
}

// A verdict, and beside it what test 6 found: the message offset of the first padding byte that is not zero, or 0 where there is none or the test
// was not reached. It stands beside the verdict and not in `Fails`: there it would share its place with a change, and the compiler would keep
// neither in registers.
#[derive(Clone, Copy)]
pub struct Judgement {
    pub verdict: Verdict,
    pub padding: usize,
}
