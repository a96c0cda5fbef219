// The table of messages: the one `match` on ids.
ghost use Rattle.std.specs.Prelude.{◌≡◌};
ghost use Rattle.kvmi.specs.Message.{layout_of, row};

use crate::{Handler, Layout, ReplyKind, SizeRule};

fn row(size: SizeRule, reply: ReplyKind, handler: Handler) -> Option<Layout>
    ensures { result ≡ row size reply handler }
{
    Some(Layout {
        size,
        reply,
        handler,
    })
}

// The row of a message with `bytes` data bytes that an error code alone answers. This and `asking` are two names, since the table below reads by them.
fn plain(bytes: u16, handler: Handler) -> Option<Layout>
    ensures { result ≡ row (SizeRule.Exactly bytes) ReplyKind.CodeOnly handler }
{
    row(SizeRule::Exactly { bytes }, ReplyKind::CodeOnly, handler)
}

// The row of a message with `bytes` data bytes that is answered with data.
fn asking(bytes: u16, handler: Handler) -> Option<Layout>
    ensures { result ≡ row (SizeRule.Exactly bytes) ReplyKind.WithData handler }
{
    row(SizeRule::Exactly { bytes }, ReplyKind::WithData, handler)
}

// The row of a message's number, if there is such a message.
#[tactic(auto, unfolding(crate::specs::Message::layout_of))]
pub fn layout(id: u16) -> Option<Layout>
    ensures { result ≡ layout_of id }
{
    match id {
        1 => asking(0, Handler::GetVersion),
        2 => plain(8, Handler::VmCheckCommand),
        3 => plain(8, Handler::VmCheckEvent),
        4 => asking(0, Handler::VmGetInfo),
        5 => plain(8, Handler::VmControlEvents),
        6 => asking(16, Handler::VmReadPhysical),
        7 => row(
            SizeRule::SizeField,
            ReplyKind::CodeOnly,
            Handler::VmWritePhysical,
        ),
        8 => asking(8, Handler::VcpuGetInfo),
        9 => plain(16, Handler::VcpuPause),
        10 => plain(16, Handler::VcpuControlEvents),
        11 => plain(16, Handler::VcpuControlCr),
        12 => plain(16, Handler::VcpuControlMsr),
        13 => row(
            SizeRule::Entries,
            ReplyKind::CodeOnly,
            Handler::VmSetPageAccess,
        ),
        14 => plain(16, Handler::VcpuControlSinglestep),
        15 => plain(8, Handler::VmControlCmdResponse),
        16 => row(SizeRule::ByEvent, ReplyKind::Silent, Handler::EventReply),
        0 | 17..=65535 => None,
    }
}
