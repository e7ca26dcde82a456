#![tactic(auto)]

ghost use Rattle.std.specs.Prelude.{◌≡◌, ◌+◌, ◌-◌, ◌*◌, ◌≤◌, ◌<◌, length};
ghost use Rattle.layout.specs.ModifiedWord.{is_modified_word};
ghost use Rattle.check_model.specs.Nines.{has_kind, links_ok, nine_test, nines_ok};
ghost use Rattle.check_model.specs.Tests.{entry_word, field_test, kind_at, kind_test, kinds_ok, link_test, section_at, unused_ok, unused_test};

use settings::Settings;

// Words of the header, and of an entry: so many numbers, then links.
pub const HEADER: usize = 24;

pub const ENTRY: usize = 9;

const NUMBERS: usize = 4;

// The greatest count.
const MOST_COUNT: u32 = 65535;

// The kinds of a word. Constants, and no enum: they are compared with what a word holds, which may be none of the two.
const NUMBER: u32 = words::NUMBER / words::VALUES;

const LINK: u32 = words::LINK / words::VALUES;

// Word j of entry e. Here and in the other tests `entries` are the words from entry 0 on, if there were one: entry e has the nine from 9 × e on.
#[tactic(auto, unfolding(check_model::specs::Tests::entry_word, words::specs::Words::val))]
pub fn field(entries: &[u32], j: u32, e: u32) -> u32
    requires { 9 * e + j < length entries.now }
    ensures { result ≡ entry_word entries.now j e }
{
    let i = ENTRY * (e as usize) + j as usize;
    entries[i] % words::VALUES
}

// The kind that word i has to have.
#[tactic(auto, unfolding(check_model::specs::Tests::kind_at))]
fn kind_at(base: usize, i: usize) -> u32
    ensures { result ≡ kind_at base i }
{
    match i {
        layout::HEAD..=layout::UNUSED => LINK,
        ..HEADER => NUMBER,
        _ if i < base => LINK,
        _ if (i - base) % ENTRY < NUMBERS => NUMBER,
        _ => LINK,
    }
}

fn kind_test(d: &[u32], base: usize, i: usize) -> bool
    ensures { result ≡ kind_test d.now base i }
{
    i < d.len() && d[i] / words::VALUES == kind_at(base, i)
}

// The kinds of the header's words are right; a word that is not there has none.
fn head_kinds(d: &[u32], base: usize) -> bool
    ensures { result ≡ kinds_ok d.now base 24 }
{
    for i in 0..HEADER {
        if !kind_test(d, base, i) {
            return false;
        }
    }
    true
}

#[tactic(auto, unfolding(check_model::specs::Nines::has_kind))]
fn has_kind(d: &[u32], i: usize, k: u32) -> bool
    requires { i < length d.now }
    ensures { result ≡ has_kind d.now i k }
{
    d[i] / words::VALUES == k
}

// The words from the header to base are links.
fn links_ok(d: &[u32], base: usize) -> bool
    requires { base ≤ length d.now }
    ensures { result ≡ links_ok d.now base }
{
    for i in HEADER..base {
        if !has_kind(d, i, LINK) {
            return false;
        }
    }
    true
}

// The nine words of an entry: four numbers, five links. All are looked at, so that nothing here branches.
#[tactic(auto, unfolding(check_model::specs::Nines::nine_test))]
fn nine_ok(d: &[u32], i: usize) -> bool
    requires { i + 9 ≤ length d.now }
    ensures { result ≡ nine_test d.now i }
{
    let numbers = has_kind(d, i, NUMBER)
        & has_kind(d, i + 1, NUMBER)
        & has_kind(d, i + 2, NUMBER)
        & has_kind(d, i + 3, NUMBER);
    let links = has_kind(d, i + 4, LINK)
        & has_kind(d, i + 5, LINK)
        & has_kind(d, i + 6, LINK)
        & has_kind(d, i + 7, LINK)
        & has_kind(d, i + 8, LINK);
    numbers & links
}

fn nines_ok(d: &[u32], base: usize, n: usize) -> bool
    requires { (base + 9 * n ≤ length d.now) × (n ≤ 4096) }
    ensures { result ≡ nines_ok d.now base n }
{
    for e in 0..n {
        if !nine_ok(d, base + ENTRY * e) {
            return false;
        }
    }
    true
}

// The words are there, and their kinds are right: those before base, then those of n entries.
#[tactic(auto, using(check_model::specs::Nines::kinds_in_parts, crate::proofs::Laws::kinds_lacking))]
pub fn kinds_ok(d: &[u32], base: usize, n: usize) -> bool
    requires { (24 ≤ base) × (base ≤ 10000) × (n ≤ 4096) }
    ensures { result ≡ kinds_ok d.now base (base + 9 * n) }
{
    base + ENTRY * n <= d.len() && head_kinds(d, base) && links_ok(d, base) && nines_ok(d, base, n)
}

// Entry e is one of n, and linked to the one before it.
#[tactic(auto, unfolding(check_model::specs::Tests::link_test))]
pub fn link_test(entries: &[u32], n: u32, e: u32, before: u32) -> bool
    requires { 9 * n + 8 < length entries.now }
    ensures { result ≡ link_test (entry_word entries.now) n e before }
{
    e != 0 && e <= n && field(entries, layout::TO_HEAD, e) == before
}

#[tactic(auto, unfolding(check_model::specs::Tests::section_at))]
fn section_at(new: u32, mid: u32, p: u32) -> u32
    ensures { result ≡ section_at new mid p }
{
    if p < new {
        0
    } else if p < mid {
        1
    } else {
        2
    }
}

// A modified word is modified + 2 × seen + 4 × pinned, where seen needs modified: half the word without the pinned mark is at most its
// lowest bit.
fn is_modified_word(w: u32) -> bool
    ensures { result ≡ is_modified_word w }
{
    let unpinned = w - w / layout::PINNED % 2 * layout::PINNED;
    unpinned / 2 <= unpinned % 2
}

// The numbers of the resident at position p are right.
#[tactic(auto, unfolding(check_model::specs::Tests::field_test))]
pub fn field_test(entries: &[u32], s: Settings, e: u32, p: u32) -> bool
    requires { 9 * e + 8 < length entries.now }
    ensures { result ≡ field_test (entry_word entries.now) s.m s.nnew (s.n - s.nold) e p }
{
    let count = field(entries, layout::COUNT, e);
    field(entries, layout::BLOCK, e) < s.m
        && (1..=MOST_COUNT).contains(&count)
        && is_modified_word(field(entries, layout::MODIFIED, e))
        && field(entries, layout::SECTION, e) == section_at(s.nnew, s.n.saturating_sub(s.nold), p)
}

#[tactic(auto, unfolding(check_model::specs::Tests::unused_test))]
fn unused_test(entries: &[u32], n: u32, e: u32) -> bool
    requires { 9 * n + 8 < length entries.now }
    ensures { result ≡ unused_test (entry_word entries.now) n e }
{
    if e == 0 || e > n {
        return false;
    }
    let numbers = u64::from(field(entries, layout::BLOCK, e))
        + u64::from(field(entries, layout::COUNT, e))
        + u64::from(field(entries, layout::SECTION, e))
        + u64::from(field(entries, layout::MODIFIED, e));
    let links = u64::from(field(entries, layout::TO_HEAD, e))
        + u64::from(field(entries, layout::CHAIN_TO_HEAD, e))
        + u64::from(field(entries, layout::CHAIN_TO_TAIL, e))
        + u64::from(field(entries, layout::NEXT_SYNONYM, e));
    numbers + links == 0
}

// The unused list has count entries, all their other values 0.
pub fn unused_ok(entries: &[u32], n: u32, count: u32, first: u32) -> bool
    requires { 9 * n + 8 < length entries.now }
    ensures { result ≡ unused_ok (entry_word entries.now) n count first }
{
    let mut e = first;
    for _ in 0..count {
        if !unused_test(entries, n, e) {
            return false;
        }
        e = field(entries, layout::TO_TAIL, e);
    }
    e == 0
}
