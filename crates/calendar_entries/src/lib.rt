// The entries of a calendar for streams (paper 02, T-02): their tests, and the number that refuses them. Each function is equal to its rule of
// crate `rules`.

#![tactic(auto)]

ghost use Rattle.std.specs.Prelude.{◌≡◌, eqb};
ghost use Rattle.std.specs.List.{list_all, list_any};
ghost use Rattle.rules.specs.Calendars.{free_entry, entry_within, entries_within, some_free};
ghost use Rattle.rules.specs.Settings.{entries_number_of};

// The positions of a calendar, and the entry that stands for a free one.
pub const POSITIONS: usize = 24;

pub const FREE: u16 = 65535;

// The highest index that a station can have.
const LAST_INDEX: u16 = 923;

// Whether an entry is free or an index.
fn entry_within(x: u16) -> bool
    ensures { result ≡ entry_within x }
{
    x == FREE || x <= LAST_INDEX
}

// The two tests over the entries as a slice, which the library's `all` and `any` are proved for.
fn each_within(entries: &[u16]) -> bool
    ensures { result ≡ list_all entry_within entries.now }
{
    entries.iter().all(|x| entry_within(*x))
}

fn any_free(entries: &[u16]) -> bool
    ensures { result ≡ list_any (λ x. eqb x free_entry) entries.now }
{
    entries.iter().any(|x| *x == FREE)
}

// Whether each entry is free or an index.
pub fn entries_within(entries: [u16; 24]) -> bool
    ensures { result ≡ entries_within entries }
{
    each_within(&entries)
}

// Whether some entry is free.
pub fn some_free(entries: [u16; 24]) -> bool
    ensures { result ≡ some_free entries }
{
    any_free(&entries)
}

// The number that refuses a calendar's entries, 0 for none. 20: an entry is neither free nor an index. 21: none is free.
pub fn entries_number(entries: [u16; 24]) -> u8
    ensures { result ≡ entries_number_of entries }
{
    if !entries_within(entries) {
        return 20;
    }
    if !some_free(entries) {
        return 21;
    }
    0
}
