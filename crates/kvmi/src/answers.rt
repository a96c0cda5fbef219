// The makers of answer 0 (12, where a resume lacks its page), and the values of any answer. No other place writes them out.
ghost use Rattle.std.specs.Prelude.{◌≡◌};
ghost use Rattle.kvmi.specs.declared.Signal.TheVariants.{Quiet};
ghost use Rattle.kvmi.specs.Answer.{paper, handled, with_padding, lacks_page};
ghost use Rattle.kvmi.specs.Feed.{unfed};

use crate::{Answer, Feed, Signal, Source, Values};

// Bytes written, and something for the host to do.
pub fn signalled(count: usize, signal: Signal) -> Answer
    ensures { paper result ≡ handled count signal }
{
    Answer::Handled(Values {
        count,
        signal,
        padding: 0,
    })
}

// Bytes written.
pub fn wrote(count: usize) -> Answer
    ensures { paper result ≡ handled count Quiet }
{
    signalled(count, Signal::Quiet)
}

// Nothing written.
pub fn done() -> Answer
    ensures { paper result ≡ handled 0 Quiet }
{
    wrote(0)
}

// No bytes, nothing to do, and nothing reported.
fn quiet() -> Values
    ensures { (result.count ≡ 0) × (result.signal ≡ Quiet) × (result.padding ≡ 0) }
{
    Values {
        count: 0,
        signal: Signal::Quiet,
        padding: 0,
    }
}

// Bytes written for a command that failed, and where its first padding byte stands that is not zero (0: none).
pub fn failed(count: usize, padding: usize) -> Answer
    ensures { paper result ≡ with_padding padding (handled count Quiet) }
{
    let mut values = quiet();
    values.count = count;
    values.padding = padding;
    Answer::Handled(values)
}

// The values of an answer; one that has none of its own wrote nothing, signals nothing and reports nothing.
pub fn values(a: Answer) -> Values
    ensures { (result.count ≡ (paper a).count) × (result.signal ≡ (paper a).signal) × (result.padding ≡ (paper a).padding) }
{
    if let Answer::Handled(values) = a {
        values
    } else {
        quiet()
    }
}

// No bytes are wanted.
pub fn unfed() -> Feed
    ensures { result ≡ unfed }
{
    Feed {
        source: Source::Unfed,
        at: 0,
        length: 0,
    }
}

// Whether a resume lacks the guest page that was to feed it: answer 12.
pub fn lacks_page(signal: Signal) -> bool
    ensures { result ≡ lacks_page signal }
{
    if let Signal::Resume(resumption) = signal {
        matches!(resumption.feed.source, Source::Missing)
    } else {
        false
    }
}
