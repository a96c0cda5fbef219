// The count and the entries of VM_SET_PAGE_ACCESS: 8 bytes, and behind them 16 for each entry.
ghost use Rattle.std.specs.Prelude.{◌≡◌, ◌&&◌, ◌+◌, ◌*◌, ◌≤◌, true, false, IfSome, IfNone, length, drop, eqb};
ghost use Rattle.kvmi.specs.Message.{count_fits, count_of, entry_of, entry_padding, first_of_runs};
ghost use Rattle.padding.specs.Entries.{accesses_fit};

use kvmi::Settings;

// The data of a message whose entries are all there, and how many they are.
#[derive(Clone, Copy)]
pub struct Entries<'a> {
    bytes: &'a [u8],
    count: usize,
    ghost inside: { 8 + 16 * count ≤ length bytes.now },
}

// Whether as many entries are there as the message counts, none missing and none left over.
pub fn count_fits(d: &[u8]) -> bool
    ensures { result ≡ count_fits d.now }
{
    d.len() == 8 + 16 * (wire::load::<u16>(d, 0) as usize)
}

// The access that an entry sets.
pub fn entry_access(e: &[u8]) -> u8
    ensures { result ≡ (entry_of e.now).access }
{
    wire::byte(e, 8)
}

impl<'a> Entries<'a> {
    // The entries of a message's data, if their count fits it.
    pub fn of(bytes: &'a [u8]) -> Option<Entries<'a>>
        ensures fits { IfSome result (λ e. (count_fits bytes.now ≡ true) × (e.bytes.now ≡ bytes.now) × (e.count ≡ count_of bytes.now)) }
        ensures misfits { IfNone result (count_fits bytes.now ≡ false) }
    {
        if !count_fits(bytes) {
            return None;
        }
        let count = wire::load::<u16>(bytes, 0) as usize;
        Some(Entries { bytes, count })
    }

    // Whether each has an access that a page can have under the settings.
    fn accesses_fit(self, settings: Settings) -> bool
        ensures { result ≡ accesses_fit settings self.entry.count (drop 8 self.entry.bytes.now) }
    {
        for i in 0..self.count {
            let a = 8 + 16 * i;
            if !tests::takes_access(settings, entry_access(&self.bytes[a..a + 16])) {
                return false;
            }
        }
        true
    }

    // Where the first padding byte stands that is not zero, as its offset in the message; 0 where there is none.
    pub fn first_padding(self) -> usize
        ensures { result ≡ first_of_runs self.entry.bytes.now (entry_padding 17 self.entry.count) }
    {
        for i in 0..self.count {
            let a = 8 + 16 * i;
            let r = crate::of_entry(&self.bytes[a..a + 16]);
            if r != 0 {
                return a + r;
            }
        }
        0
    }

    // Whether all padding is clean. The usual case asks this alone: a loop that keeps no offset is a load and two tests for an entry.
    pub fn are_clean(self) -> bool
        ensures { result ≡ eqb (first_of_runs self.entry.bytes.now (entry_padding 17 self.entry.count)) 0 }
    {
        for i in 0..self.count {
            let a = 8 + 16 * i;
            if crate::of_entry(&self.bytes[a..a + 16]) != 0 {
                return false;
            }
        }
        true
    }
}

// Whether the count fits and each of the entries has an access that a page can have under the settings.
pub fn entries_fit(settings: Settings, d: &[u8]) -> bool
    ensures { result ≡ (count_fits d.now && accesses_fit settings (count_of d.now) (drop 8 d.now)) }
{
    match Entries::of(d) {
        Some(entries) => entries.accesses_fit(settings),
        None => false,
    }
}
