// A stream of messages, end to end: where the next one ends, and the facts of the line that tells what became of it. Reading and
// printing are the caller's.
#![tactic(auto)]

ghost use Rattle.std.specs.Prelude.{◌≡◌, eqb};
ghost use Rattle.kvmi.specs.Answer.{paper};
ghost use Rattle.stream.specs.Cut.{cut_of, extent_of};
ghost use Rattle.stream.specs.Signed.{signed_of};
ghost use Rattle.stream.specs.Line.{line_id, seq_of, error_at, error_of, line_of};

use kvmi::Answer;

// What the first bytes of a message, at most 8 of them, say of it: there is none; its header is cut, and these bytes are all
// of it; it is too long to be taken; or it has so many bytes in all.
#[derive(Clone, Copy)]
pub enum Cut {
    End,
    Tail,
    Long,
    Message { total: usize },
}

// What is told of a message: its id and seq, each where all of it is there, the host answer's number, how many bytes were written, and the error
// in them, where there are any. The answer is its number, which is what the line prints; `line_of` takes it from any answer on paper (`Paper`), and not
// every one of those is an `Answer`.
#[derive(Clone, Copy)]
pub struct Line {
    pub id: Option<u32>,
    pub seq: Option<u32>,
    pub answer: u8,
    pub count: usize,
    pub error: Option<i32>,
}

// How a run ends: the input is over, a message closed the session, or the next one is too long to be taken.
#[derive(Clone, Copy)]
pub enum End {
    Open,
    Closed,
    Long,
}

// What the first bytes of a message say of it.
#[tactic(auto, unfolding(crate::specs::Cut::cut_of, crate::specs::Cut::total_of))]
pub fn cut_next(head: &[u8]) -> Cut
    ensures { result ≡ cut_of head.now }
{
    let n = head.len();
    if n == 0 {
        return Cut::End;
    }
    if n < 8 {
        return Cut::Tail;
    }
    let total = 8 + wire::load::<u16>(head, 2) as usize;
    if 65536 < total {
        return Cut::Long;
    }
    Cut::Message { total }
}

// How many bytes a message has in all of which these are the first, at most 8: no more than these, where they are all of it
// or it is not taken.
#[tactic(auto, unfolding(crate::specs::Cut::extent_of))]
pub fn extent(head: &[u8]) -> usize
    ensures { result ≡ extent_of head.now }
{
    match cut_next(head) {
        Cut::End | Cut::Tail | Cut::Long => head.len(),
        Cut::Message { total } => total,
    }
}

// The number whose two's complement is n.
pub fn signed(n: u32) -> i32
    ensures { result ≡ signed_of n }
{
    n.cast_signed()
}

// The number of an answer: document 01's, or W5's 12.
pub fn answer_number(a: Answer) -> u8
    ensures { result ≡ (paper a).number }
{
    match a {
        Answer::Handled(values) if kvmi::answers::lacks_page(values.signal) => 12,
        Answer::Handled(_) => 0,
        Answer::Closing => 1,
        Answer::Closed => 2,
        Answer::ShortOut => 3,
        Answer::BadVcpu => 4,
        Answer::BadState => 5,
        Answer::Waiting => 6,
        Answer::BadSettings => 7,
        Answer::BadForm { .. } => 8,
        Answer::Forbidden { .. } => 9,
        Answer::Busy => 10,
        Answer::NotApplicable => 14,
    }
}

// How many bytes an answer says were written.
pub fn answer_count(a: Answer) -> usize
    ensures { result ≡ (paper a).count }
{
    kvmi::answers::values(a).count
}

// Whether the message that got this answer closed its session.
pub fn closes(a: Answer) -> bool
    ensures { result ≡ eqb (paper a).number 1 }
{
    matches!(a, Answer::Closing)
}

#[tactic(auto, unfolding(crate::specs::Line::line_id))]
fn id_of(msg: &[u8]) -> Option<u32>
    ensures { result ≡ line_id msg.now }
{
    if msg.len() < 2 {
        return None;
    }
    Some(wire::load::<u16>(msg, 0) as u32)
}

#[tactic(auto, unfolding(crate::specs::Line::seq_of))]
fn seq_of(msg: &[u8]) -> Option<u32>
    ensures { result ≡ seq_of msg.now }
{
    if msg.len() < 8 {
        return None;
    }
    Some(wire::load::<u32>(msg, 4))
}

// Where the error stands in what was written: a CMD_ERROR has it at another place than a reply.
#[tactic(auto, unfolding(crate::specs::Line::error_at, crate::specs::Line::is_command_error))]
fn error_at(out: &[u8], count: usize) -> usize
    ensures { result ≡ error_at out.now count }
{
    if count == 568 && wire::load::<u16>(out, 0) == 17 {
        552
    } else {
        8
    }
}

#[tactic(auto, unfolding(crate::specs::Line::error_of))]
fn error_of(out: &[u8], count: usize) -> Option<i32>
    ensures { result ≡ error_of out.now count }
{
    if count == 0 {
        return None;
    }
    Some(signed(wire::load::<u32>(out, error_at(out, count))))
}

// What is told of a message, by the output after it and its answer.
#[tactic(auto, unfolding(crate::specs::Line::line_of))]
pub fn describe(msg: &[u8], out: &[u8], answer: Answer) -> Line
    ensures { result ≡ line_of msg.now out.now (paper answer) }
{
    let count = answer_count(answer);
    Line {
        id: id_of(msg),
        seq: seq_of(msg),
        answer: answer_number(answer),
        count,
        error: error_of(out, count),
    }
}
