// The page words that a host lends: one for each page below rwx, ascending and dense, with 0 after those in use.
// Every public function takes words of any length and any numbers.
#![tactic(auto)]

ghost use Rattle.std.specs.Prelude.{◌≡◌, ◌+◌, ◌*◌, ◌≤◌, ◌<◌, ◌^◌, min, ltb, length};
ghost use Rattle.kvmi.specs.Bits.{bit};
ghost use Rattle.kvmi.specs.Message.{entry_of, entries_of};
ghost use Rattle.page_words.specs.PageWords.{word_key, place_of, word_access, insert_word, remove_word, stands_at, page_table, change_word, add_word, near_place, next_hint, put_entry, run_entries};

// How many words are lent for the pages.
pub const PAGE_WORDS: usize = 1024;

pub type PageWords = [u64; PAGE_WORDS];

// A page's word is `view * VIEW + page * PAGE + access`.
pub const VIEW: u64 = 1 << 55;

pub const PAGE: u64 = 1 << 3;

// The access of a page that no word stands for: read, write and execute.
pub const RWX: u8 = 7;

// How many keys a word can have, 2^61.
const KEYS: u64 = 1 << 61;

// The top bit of a word.
const TOP: u64 = 1 << 63;

// How many words are in use after entries were taken, and whether one was skipped for want of room. The words themselves are lent beside it:
// `put_entries` promises their count as a plain value, and a struct that borrowed them could not be handed back.
#[derive(Clone, Copy)]
pub struct Taken {
    pub count: usize,
    pub skipped: bool,
}

// What an entry asks for: the key of its page, the view and the page number together, and the access that the page is to have.
#[derive(Clone, Copy)]
struct Wanted {
    key: u64,
    access: u8,
    ghost fits: { key < 2 ^ 55 },
}

impl Wanted {
    // The word of the page at this access.
    fn word(self) -> u64
        ensures { result ≡ self.key * 8 + self.access }
    {
        self.key * 8 + (self.access as u64)
    }
}

// An entry of message 13: a page number and the access that it is to have.
#[derive(Clone, Copy)]
pub struct PageEntry {
    pub page: u64,
    pub access: u8,
}

// 1 if a word's key is below another, else 0: the top bit of a difference, so that nothing branches on it.
#[tactic(auto, using(crate::proofs::PageLaws::below_bit), unfolding(crate::specs::PageWords::word_key))]
fn is_below(word: u64, key: u64) -> usize
    ensures { result ≡ bit (ltb (word_key word) key) }
{
    if key < KEYS {
        1 - ((word / 8 + (TOP - key)) >> 63) as usize
    } else {
        1
    }
}

// Where a key stands among the first `count` words, or belongs. By hand and not by the library's binary search, which promises an index only for words in
// order: `place_of` gives one for any words. Which half is left is computed and not branched on, since the processor's guess at it would be wrong half of the
// time.
#[tactic(auto, using(crate::proofs::PageLaws::turn_inside))]
pub fn place(words: &[u64], count: usize, key: u64) -> usize
    ensures { result ≡ place_of words.now (min count (length words.now)) key }
{
    let mut base = 0;
    let mut len = count.min(words.len());
    while len > 0 {
        let half = len / 2;
        let below = is_below(words[base + half], key);
        base += below * (half + 1);
        len = half - below * (1 - len % 2);
    }
    base
}

// The access of the page with a key among the first `count` words, found by bisection; one without a word stands at rwx.
#[tactic(auto, using(crate::proofs::PageLaws::stands_lt), unfolding(crate::specs::PageWords::word_access, crate::specs::PageWords::word_access_in))]
pub fn word_access(words: &[u64], count: usize, key: u64) -> u32
    ensures { result ≡ word_access words.now count key }
{
    let used = count.min(words.len());
    let at = place(words, count, key);
    if stands_at(words, used, key, at) {
        (words[at] % 8) as u32
    } else {
        RWX as u32
    }
}

// A word more at a place: the words after it move up by one.
#[tactic(auto, using(crate::proofs::PageLaws::insert_moved))]
fn insert(words: &mut [u64], count: usize, at: usize, x: u64)
    requires { (at ≤ count) × (count < length words.old) }
    ensures { words.new ≡ insert_word words.old count at x }
{
    words.copy_within(at..count, at + 1);
    words[at] = x;
}

// A word less at a place: the words after it move down by one, and the last becomes 0.
#[tactic(auto, using(crate::proofs::PageLaws::remove_moved))]
fn remove(words: &mut [u64], count: usize, at: usize)
    requires { (at < count) × (count ≤ length words.old) }
    ensures { words.new ≡ remove_word words.old count at }
{
    words.copy_within(at + 1..count, at);
    words[count - 1] = 0;
}

// An entry for a page whose word stands at a place: at rwx the word goes.
#[tactic(auto, unfolding(crate::specs::PageWords::change_word))]
fn change_word(words: &mut [u64], t: Taken, at: usize, wanted: Wanted) -> Taken
    requires { (at < t.count) × (t.count ≤ length words.old) }
    ensures { page_table words.new result.count result.skipped ≡ change_word (page_table words.old t.count t.skipped) at wanted.key wanted.access }
{
    if wanted.access == RWX {
        remove(words, t.count, at);
        Taken {
            count: t.count - 1,
            ..t
        }
    } else {
        words[at] = wanted.word();
        t
    }
}

// An entry for a page without a word, which belongs at a place: skipped if there is no room for it.
#[tactic(auto, unfolding(crate::specs::PageWords::add_word))]
fn add_word(words: &mut [u64], t: Taken, limit: usize, at: usize, wanted: Wanted) -> Taken
    requires { (at ≤ t.count) × (t.count ≤ length words.old) }
    ensures { page_table words.new result.count result.skipped ≡ add_word limit (page_table words.old t.count t.skipped) at wanted.key wanted.access }
{
    if wanted.access == RWX {
        t
    } else if t.count < limit.min(words.len()) {
        insert(words, t.count, at, wanted.word());
        Taken {
            count: t.count + 1,
            ..t
        }
    } else {
        Taken { skipped: true, ..t }
    }
}

// Whether the word at a place is in use and has a key.
#[tactic(auto, unfolding(crate::specs::PageWords::stands_at, crate::specs::PageWords::word_key))]
fn stands_at(words: &[u64], count: usize, key: u64, at: usize) -> bool
    requires { count ≤ length words.now }
    ensures { result ≡ stands_at words.now count key at }
{
    at < count && words[at] / 8 == key
}

// Where a key stands among the first `count` words, or belongs: a place that is tried first, or else found by bisection. The pages of a run
// stand one behind the other, so that each but the first is found at once.
#[tactic(auto, using(crate::proofs::PageLaws::place_whole), unfolding(crate::specs::PageWords::near_place))]
fn near(words: &[u64], count: usize, key: u64, hint: usize) -> usize
    requires { count ≤ length words.now }
    ensures { result ≡ near_place words.now count key hint }
{
    if stands_at(words, count, key, hint) {
        hint
    } else {
        place(words, count, key)
    }
}

// The place to be tried for the next entry: behind that of this one.
#[tactic(auto, unfolding(crate::specs::PageWords::next_hint))]
fn next_hint(at: usize, count: usize) -> usize
    ensures { result ≡ next_hint at count }
{
    if at < count { at + 1 } else { at }
}

// One entry, whose key stands or belongs at a place.
#[tactic(auto, using(crate::proofs::PageLaws::stands_lt), unfolding(crate::specs::PageWords::put_entry))]
fn put_entry(words: &mut [u64], t: Taken, limit: usize, at: usize, wanted: Wanted) -> Taken
    requires { (at ≤ t.count) × (t.count ≤ length words.old) }
    ensures { page_table words.new result.count result.skipped ≡ put_entry limit at wanted.key wanted.access (page_table words.old t.count t.skipped) }
{
    if stands_at(words, t.count, wanted.key, at) {
        change_word(words, t, at, wanted)
    } else {
        add_word(words, t, limit, at, wanted)
    }
}

// The entry in 16 bytes; a field that is not all there is 0.
#[tactic(auto, unfolding(kvmi::specs::Message::entry_of))]
pub fn read_entry(e: &[u8]) -> PageEntry
    ensures { (result.page ≡ (entry_of e.now).page) × (result.access ≡ (entry_of e.now).access) }
{
    PageEntry {
        page: wire::load::<u64>(e, 0) / 4096,
        access: wire::byte(e, 8),
    }
}

// The n entries of `d`, in order. One that is skipped does not stop those behind it.
#[tactic(auto, using(crate::proofs::PageLaws::page_bound, crate::proofs::PageLaws::near_bound))]
pub fn put_entries(
    words: &mut [u64],
    count: usize,
    limit: usize,
    view: u16,
    n: u16,
    d: &[u8],
) -> Taken
    ensures { page_table words.new result.count result.skipped ≡ run_entries limit view (entries_of n d.now) words.old count }
{
    let first = ((view % kvmi::VIEWS) as u64) * kvmi::PAGES;
    let mut t = Taken {
        count: count.min(words.len()),
        skipped: false,
    };
    let mut hint = 0;
    // n entries, also if d ends before: those past its end read as 0. Its chunks of 16 would be fewer.
    for i in 0..n {
        let a = ((i as usize) * 16).min(d.len());
        let b = (a + 16).min(d.len());
        let e = read_entry(&d[a..b]);
        let wanted = Wanted {
            key: first + e.page,
            access: e.access,
        };
        let at = near(words, t.count, wanted.key, hint);
        t = put_entry(words, t, limit, at, wanted);
        hint = next_hint(at, t.count);
    }
    t
}

// Whether an entry of the n would be skipped, by a run of all of them on a copy of the words. It has a loop of its own: where two functions share
// one, the compiler puts it into neither, and each message 13 pays for the call.
#[tactic(auto, using(crate::proofs::PageLaws::page_bound, crate::proofs::PageLaws::near_bound))]
pub fn would_skip(
    words: &PageWords,
    count: usize,
    limit: usize,
    view: u16,
    n: u16,
    d: &[u8],
) -> bool
    ensures { result ≡ (run_entries limit view (entries_of n d.now) words.now count).skipped }
{
    // An array lent as a slice is known to have its length.
    let lent: &[u64] = words;
    let mut copy = *words;
    let first = ((view % kvmi::VIEWS) as u64) * kvmi::PAGES;
    let mut t = Taken {
        count: count.min(lent.len()),
        skipped: false,
    };
    let mut hint = 0;
    for i in 0..n {
        let a = ((i as usize) * 16).min(d.len());
        let b = (a + 16).min(d.len());
        let e = read_entry(&d[a..b]);
        let wanted = Wanted {
            key: first + e.page,
            access: e.access,
        };
        let at = near(&copy, t.count, wanted.key, hint);
        t = put_entry(&mut copy, t, limit, at, wanted);
        hint = next_hint(at, t.count);
    }
    t.skipped
}
