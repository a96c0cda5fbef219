// A session: what the filter keeps of a guest. It is a small value that the host keeps; its tables are words that the host lends with each call.
// Here it begins and gets its ready marks; `message` and `entry` have the other calls that move it.
#![tactic(auto)]

ghost use Rattle.std.specs.Prelude.{◌≡◌, List, [], ℕ, leb, ltb};
ghost use Rattle.kvmi.specs.Settings.{in_range};
ghost use Rattle.kvmi.specs.Limits.{page_limit, pause_limit, least_out};
ghost use Rattle.session.specs.State.{state, blank_session, closed_session, with_tool, with_tool_seq};
ghost use Rattle.session.specs.Calls.{told, fresh_of, ready_of};

use kvmi::{Answer, Settings};
use page_words::PageWords;
use store::words::VcpuWords;

// What one introspection tool owns: unsigned integers only, so that any bits are a value. A flag is set where it is not 0.
#[repr(C)]
#[derive(Clone, Copy)]
pub struct Tool {
    // VM event switches, bit e for event e.
    pub events: u64,
    // How many page words are in use.
    pub pages: u64,
    // Memory of zeros is a closed session.
    pub opened: u32,
    // 0: replies on; 1: off; any other: off, and errors told by CMD_ERROR events.
    pub mode: u32,
    // The next event's seq.
    pub seq: u32,
}

// What all of a guest's tools share.
#[repr(C)]
#[derive(Clone, Copy)]
pub struct Shared {
    // Bit i is the ready mark of vCPU i.
    pub ready: u64,
}

#[repr(C)]
#[derive(Clone, Copy)]
pub struct Session {
    pub settings: Settings,
    pub tool: Tool,
    pub shared: Shared,
}

// What a call gives back: its answer, and the session after it. The session stands first, so that it is copied by whole words.
#[derive(Clone, Copy)]
pub struct Done {
    pub session: Session,
    pub answer: Answer,
}

impl Session {
    // How many pages can stand below rwx, in all views together.
    pub const PAGE_LIMIT: usize = 1024;

    // How many pauses of a vCPU can be queued.
    pub const PAUSE_LIMIT: u64 = 8;

    // The least output that a message is given.
    pub const LEAST_OUT: usize = 4112;

    // Whether a number of pages leaves room for one more.
    pub fn has_room(pages: usize) -> bool
        ensures { result ≡ ltb pages page_limit }
    {
        pages < Session::PAGE_LIMIT
    }

    // Whether a queue with a number of pauses takes no more.
    pub fn is_full(pauses: u64) -> bool
        ensures { result ≡ leb pause_limit pauses }
    {
        Session::PAUSE_LIMIT <= pauses
    }

    // Whether a queue can hold a number of pauses.
    pub fn can_hold(pauses: u64) -> bool
        ensures { result ≡ leb pauses pause_limit }
    {
        pauses <= Session::PAUSE_LIMIT
    }

    // Whether an output is too short for a message.
    pub fn is_short(out: usize) -> bool
        ensures { result ≡ ltb out least_out }
    {
        out < Session::LEAST_OUT
    }

    // Every switch off, no vCPU ready, replies on, next event seq 0; open or not.
    fn blank(settings: Settings, opened: u32) -> Self
        ensures { result ≡ blank_session settings opened }
    {
        let tool = Tool {
            events: 0,
            pages: 0,
            opened,
            mode: 0,
            seq: 0,
        };
        let shared = Shared { ready: 0 };
        Session {
            settings,
            tool,
            shared,
        }
    }

    // A session begins fresh, on whatever words are lent. Settings out of range are refused: no word changes, and the
    // session that is handed back is closed.
    #[tactic(auto, unfolding(crate::specs::Calls::fresh_of))]
    pub fn fresh(settings: Settings, vcpus: &mut VcpuWords, pages: &mut PageWords) -> Done
        ensures { told result vcpus.new pages.new [] [] ≡ fresh_of settings vcpus.old pages.old }
    {
        if !in_range(settings) {
            return Session::shut(settings).answers(Answer::BadSettings);
        }
        store::words::clear(vcpus);
        store::words::clear(pages);
        Session::blank(settings, 1).answers(kvmi::answers::done())
    }

    // Fresh, but closed.
    pub fn shut(settings: Settings) -> Self
        ensures { result ≡ closed_session settings }
    {
        Session::blank(settings, 0)
    }

    // The same with what its tool owns.
    pub fn with_tool(self, tool: Tool) -> Self
        ensures { result ≡ with_tool self tool }
    {
        Session { tool, ..self }
    }

    // The same with the next event's seq.
    pub fn with_seq(self, seq: u32) -> Self
        ensures { result ≡ with_tool self (with_tool_seq self.tool seq) }
    {
        self.with_tool(Tool { seq, ..self.tool })
    }

    // What a call gives that answers so, and leaves this session.
    pub fn answers(self, answer: Answer) -> Done
        ensures { (result.session ≡ self) × (result.answer ≡ answer) }
    {
        Done {
            session: self,
            answer,
        }
    }

    // A vCPU can be introspected from now on.
    #[tactic(auto, unfolding(crate::specs::Calls::ready_of))]
    pub fn ready(self, vcpu: u16) -> Done
        ensures { (v p : List ℕ) → told result v p [] [] ≡ ready_of (state self v p) vcpu }
    {
        if self.tool.opened == 0 {
            return self.answers(Answer::Closed);
        }
        if self.settings.vcpus <= vcpu as u32 {
            return self.answers(Answer::BadVcpu);
        }
        let ready = store::bits::put_bit(self.shared.ready, vcpu as u32, true);
        let shared = Shared { ready };
        Session { shared, ..self }.answers(kvmi::answers::done())
    }
}

// Whether the settings' counts and their revision are in their ranges.
#[tactic(auto, unfolding(kvmi::specs::Settings::in_range))]
pub fn in_range(settings: Settings) -> bool
    ensures { result ≡ in_range settings }
{
    (1..=16).contains(&settings.vcpus)
        && (1..=kvmi::VIEWS as u32).contains(&settings.views)
        && (1..=2).contains(&settings.revision)
}
