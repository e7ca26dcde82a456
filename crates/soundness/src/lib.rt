#![tactic(auto)]

ghost use Rattle.std.specs.Prelude.{◌≡◌, ◌+◌, ◌-◌, ◌*◌, ◌≤◌, ◌<◌, length};
ghost use Rattle.settings.specs.Buckets.{buckets};
ghost use Rattle.layout.specs.Sound.{sound};
ghost use Rattle.check_model.specs.Tests.{entry_word, head_of};
ghost use Rattle.check_model.specs.Walk.{entry_test, lists_walk, met, numbers_with, totals_with, walk_end, walk_test};

use check_lists::{Buckets, COUNTS};
use settings::Legal;

// What a walk along the stack has met where it ends.
#[derive(Clone, Copy)]
struct Walk {
    e: u32, // the entry behind the last one, or none
    before: u32, // the last one
    sum: u64, // of counts
    marks: u64, // how many residents are modified
    young: u32, // the entry at position Nnew
    old: u32, // the one at N − Nold
}

// The numbers of the header beside the stack: the sum of counts and the entries at the boundaries.
#[tactic(auto, using(settings::specs::NumbersLaws::legal_settings), unfolding(check_model::specs::Walk::numbers_with))]
fn numbers_ok(d: &[u32], legal: Legal, at: Walk) -> bool
    ensures { result ≡ numbers_with d.now legal.of.n legal.of.amax at.sum at.young at.old }
{
    u64::from(words::get(d, layout::SUM)) == at.sum
        && at.sum <= u64::from(legal.of.amax) * u64::from(legal.of.n)
        && words::get(d, layout::NEW_BOUNDARY) == at.young
        && words::get(d, layout::OLD_BOUNDARY) == at.old
        && words::get(d, layout::BLANK_14) == 0
        && words::get(d, layout::BLANK_15) == 0
}

#[tactic(auto, using(check_model::specs::LoopLaws::total_small), unfolding(check_model::specs::Walk::totals_with, check_model::specs::Tests::total_of))]
fn totals_ok(d: &[u32], marks: u64) -> bool
    requires { marks ≤ 17592186044416 }
    ensures { result ≡ totals_with d.now marks }
{
    header::total_at(d, layout::INS) <= header::total_at(d, layout::READS)
        && header::total_at(d, layout::OUTS) + marks <= header::total_at(d, layout::WRITES)
}

// The resident at position p: linked, its numbers right, behind the last of its count.
#[tactic(auto, using(check_model::specs::LoopLaws::link_low), unfolding(check_model::specs::Walk::entry_test))]
fn entry_ok(
    d: &[u32],
    entries: &[u32],
    legal: Legal,
    e: u32,
    before: u32,
    p: u32,
    last: &[u32; COUNTS],
) -> bool
    requires { 9 * legal.of.n + 8 < length entries.now }
    ensures { result ≡ entry_test (entry_word entries.now) (head_of d.now) legal.of.n legal.of.m legal.of.nnew
        (legal.of.n - legal.of.nold) legal.of.cmax
        e before p last.now }
{
    check_stack::link_test(entries, legal.of.n, e, before)
        && check_stack::field_test(entries, legal.of, e, p)
        && check_lists::chain_test(d, entries, legal, e, last)
}

// What is left to test where the walk ends.
#[tactic(auto, unfolding(check_model::specs::Walk::walk_end))]
fn end_ok(d: &[u32], entries: &[u32], legal: Legal, at: Walk, last: &[u32; COUNTS]) -> bool
    requires { at.marks ≤ 17592186044416 }
    ensures { result ≡ walk_end d.now (entry_word entries.now) legal.of.n legal.of.cmax legal.of.amax
        at.e at.before at.sum at.marks last.now at.young at.old }
{
    at.e == 0
        && at.before == words::get(d, layout::TAIL)
        && check_lists::ends_ok(d, entries, legal, last)
        && numbers_ok(d, legal, at)
        && totals_ok(d, at.marks)
}

// Entry e where position p is q, else the one met before.
#[tactic(auto, unfolding(check_model::specs::Walk::met))]
fn met_at(p: u32, q: u32, e: u32, a: u32) -> u32
    ensures { result ≡ met p q e a }
{
    if p == q { e } else { a }
}

// One walk along the stack: links, numbers, chains, sums and boundaries.
fn walk_ok(d: &[u32], entries: &[u32], legal: Legal, count: u32, head: u32) -> bool
    requires { (count ≤ 4096) × (9 * legal.of.n + 8 < length entries.now) }
    ensures { result ≡ walk_test d.now (entry_word entries.now) legal.of.n legal.of.m legal.of.nnew
        (legal.of.n - legal.of.nold) legal.of.cmax legal.of.amax
        count head }
{
    let new = legal.of.nnew;
    let mid = legal.of.n - legal.of.nold;
    let mut last = [0; COUNTS];
    // Six locals, and a `Walk` only of what they end with: with the struct in the loop the check takes up to a sixth longer.
    let mut e = head;
    let mut before = 0;
    let mut sum: u64 = 0;
    let mut marks: u64 = 0;
    let mut young = 0;
    let mut old = 0;
    for p in 0..count {
        if !entry_ok(d, entries, legal, e, before, p, &last) {
            return false;
        }
        let c = check_stack::field(entries, layout::COUNT, e);
        sum += u64::from(c);
        let w = check_stack::field(entries, layout::MODIFIED, e);
        marks += u64::from(w % 2);
        check_lists::note(&mut last, c, e);
        young = met_at(p, new, e, young);
        old = met_at(p, mid, e, old);
        before = e;
        e = check_stack::field(entries, layout::TO_TAIL, e);
    }
    let at = Walk {
        e,
        before,
        sum,
        marks,
        young,
        old,
    };
    end_ok(d, entries, legal, at, &last)
}

// Where the buckets stand under these settings.
fn buckets_of(legal: Legal) -> Buckets
    ensures { (result.start ≡ 24 + 2 * legal.of.cmax) × (result.many ≡ buckets legal.of.n) }
{
    Buckets {
        start: check_stack::HEADER as u32 + 2 * legal.of.cmax,
        many: settings::buckets(legal.of.n),
    }
}

// The stack, the unused list and the rest, of legal settings.
fn lists_ok(d: &[u32], legal: Legal, at: Buckets) -> bool
    requires { (at.start ≡ 24 + 2 * legal.of.cmax) × (at.many ≤ 4096) × (at.start + at.many + 9 * legal.of.n ≤ length d.now) }
    ensures { result ≡ lists_walk d.now legal.of.n legal.of.nnew legal.of.nold legal.of.cmax legal.of.amax legal.of.m at.many }
{
    let n = legal.of.n;
    let entries = &d[at.start as usize + at.many as usize - check_stack::ENTRY..];
    let count = words::get(d, layout::RESIDENTS);
    if count > n {
        return false;
    }
    walk_ok(d, entries, legal, count, words::get(d, layout::HEAD))
        && check_stack::unused_ok(entries, n, n - count, words::get(d, layout::UNUSED))
        && check_lists::buckets_ok(d, entries, n, at, count)
}

// Whether the words are a sound directory.
pub fn sound(dir: &[u32]) -> bool
    ensures { result ≡ sound dir.now }
{
    let Ok(legal) = header::settings_in(dir).check() else {
        return false;
    };
    let at = buckets_of(legal);
    let base = at.start as usize + at.many as usize;
    check_stack::kinds_ok(dir, base, legal.of.n as usize) && lists_ok(dir, legal, at)
}
