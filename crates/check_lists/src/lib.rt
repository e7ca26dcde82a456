#![tactic(auto)]

ghost use Rattle.std.specs.Prelude.{◌≡◌, ◌+◌, ◌-◌, ◌*◌, ◌<◌, length, MatchOption};
ghost use Rattle.layout.specs.Addresses.{COUNT};
ghost use Rattle.check_model.specs.Masks.{Masks};
ghost use Rattle.check_model.specs.Tests.{Lent, Tested, buckets_from, chain_test, cursor, end_test, ends_ok, entry_word, first_of, head_of, last_at, left_after, list_test, no_second, noted, tail_of};

use settings::Legal;

// Counts that have a chain under some settings, and 0.
pub const COUNTS: usize = 65;

// The words of chain 0, if there were one.
const HEAD: usize = check_stack::HEADER - 2;

const TAIL: usize = HEAD + 1;

// Where the buckets' links begin, and how many there are: a power of two, so that a mask of a hash gives its bucket.
#[derive(Clone, Copy)]
pub struct Buckets {
    pub start: u32,
    pub many: u32,

    ghost some: { 0 < many },
    ghost mask: { Masks (many - 1) many },
}

// The entries that a chain's head and tail link to: a function each, as they have a definition each.
#[tactic(auto, unfolding(check_model::specs::Tests::head_of))]
fn head_of(d: &[u32], i: u32) -> u32
    ensures { result ≡ head_of d.now i }
{
    words::get(d, HEAD + 2 * (i as usize))
}

#[tactic(auto, unfolding(check_model::specs::Tests::tail_of))]
fn tail_of(d: &[u32], i: u32) -> u32
    ensures { result ≡ tail_of d.now i }
{
    words::get(d, TAIL + 2 * (i as usize))
}

// The entry that chain c names behind before.
#[tactic(auto, unfolding(check_model::specs::Tests::cursor, check_model::specs::Tests::entry_word))]
fn cursor_of(d: &[u32], entries: &[u32], before: u32, c: u32) -> u32
    ensures { result ≡ cursor (entry_word entries.now) (head_of d.now) before c }
{
    if before == 0 {
        head_of(d, c)
    } else {
        words::get(
            entries,
            check_stack::ENTRY * (before as usize) + layout::CHAIN_TO_TAIL as usize,
        )
    }
}

// The last entry seen of a count.
#[tactic(auto, unfolding(check_model::specs::Tests::last_at))]
fn last_of(last: &[u32; COUNTS], c: u32) -> u32
    requires { c < 65 }
    ensures { result ≡ last_at last.now c }
{
    last[c as usize]
}

// Entry e stands behind the last one of its count, or in no chain.
#[tactic(auto, using(settings::specs::NumbersLaws::legal_settings), unfolding(check_model::specs::Tests::chain_test))]
pub fn chain_test(d: &[u32], entries: &[u32], legal: Legal, e: u32, last: &[u32; COUNTS]) -> bool
    requires { 9 * e + 8 < length entries.now }
    ensures { result ≡ chain_test (entry_word entries.now) (head_of d.now) legal.of.cmax e
        (last_at last.now (entry_word entries.now COUNT e)) }
{
    let count = check_stack::field(entries, layout::COUNT, e);
    let ahead = check_stack::field(entries, layout::CHAIN_TO_HEAD, e);
    if count > legal.of.cmax {
        return ahead == 0 && check_stack::field(entries, layout::CHAIN_TO_TAIL, e) == 0;
    }
    let before = last_of(last, count);
    ahead == before && cursor_of(d, entries, before, count) == e
}

#[tactic(auto, unfolding(check_model::specs::Tests::end_test))]
fn end_test(d: &[u32], entries: &[u32], i: u32, before: u32) -> bool
    ensures { result ≡ end_test (entry_word entries.now) (head_of d.now) (tail_of d.now) i before }
{
    tail_of(d, i) == before && cursor_of(d, entries, before, i) == 0
}

// Entry e is the last one seen of count c.
#[tactic(auto, unfolding(check_model::specs::Tests::noted))]
pub fn note(last: &mut [u32; COUNTS], c: u32, e: u32)
    ensures { last.new ≡ noted last.old c e }
{
    if c < COUNTS as u32 {
        last[c as usize] = e;
    }
}

// The chains end where the last entries of their counts are.
pub fn ends_ok(d: &[u32], entries: &[u32], legal: Legal, last: &[u32; COUNTS]) -> bool
    ensures { result ≡ ends_ok (entry_word entries.now) (head_of d.now) (tail_of d.now) legal.of.cmax last.now }
{
    for i in 0..legal.of.cmax {
        if !end_test(d, entries, i + 1, last_of(last, i + 1)) {
            return false;
        }
    }
    true
}

// None of the first `ahead` entries that the bucket lists, all within the slice, has that block.
fn no_second_resident(
    d: &[u32],
    entries: &[u32],
    buckets: Buckets,
    bucket: u32,
    block: u32,
    ahead: u32,
) -> bool
    requires { Lent entries.now ahead (first_of d.now buckets.start bucket) }
    ensures { result ≡ no_second (entry_word entries.now) block ahead (first_of d.now buckets.start bucket) }
{
    // so that a list's first resident costs no look at the bucket again
    if ahead == 0 {
        return true;
    }
    let mut e = words::get(d, buckets.start as usize + bucket as usize);
    for _ in 0..ahead {
        if check_stack::field(entries, layout::BLOCK, e) == block {
            return false;
        }
        e = check_stack::field(entries, layout::NEXT_SYNONYM, e);
    }
    true
}

// Entry e, listed in bucket b behind `ahead` others, is in the bucket of its block, and none of them has that block.
#[tactic(auto, using(crate::proofs::Laws::own_is, check_model::specs::LoopLaws::tested_lent), unfolding(check_model::specs::Tests::list_test))]
fn list_test(
    d: &[u32],
    entries: &[u32],
    n: u32,
    buckets: Buckets,
    b: u32,
    ahead: u32,
    e: u32,
) -> bool
    requires { (9 * n + 8 < length entries.now)
        × Tested (entry_word entries.now) (first_of d.now buckets.start) n buckets.many b ahead }
    ensures { result ≡ list_test (entry_word entries.now) (first_of d.now buckets.start) n buckets.many b ahead e }
{
    if e > n || check_stack::field(entries, layout::COUNT, e) == 0 {
        return false;
    }
    let block = check_stack::field(entries, layout::BLOCK, e);
    let own = fnv::hash(block) & (buckets.many - 1);
    if own != b {
        return false;
    }
    no_second_resident(d, entries, buckets, own, block, ahead)
}

// What is left of the budget after bucket b; none where its list is wrong. A link of 0 ends the list.
fn bucket(d: &[u32], entries: &[u32], n: u32, buckets: Buckets, b: u32, budget: u32) -> Option<u32>
    requires { 9 * n + 8 < length entries.now }
    ensures { MatchOption result
        (left_after (entry_word entries.now) (first_of d.now buckets.start) n buckets.many b budget ≡ 0)
        (λ left. left_after (entry_word entries.now) (first_of d.now buckets.start) n buckets.many b budget ≡ left + 1) }
{
    let mut e = words::get(d, buckets.start as usize + b as usize);
    for ahead in 0..budget {
        if e == 0 {
            return Some(budget - ahead);
        }
        if !list_test(d, entries, n, buckets, b, ahead, e) {
            return None;
        }
        e = check_stack::field(entries, layout::NEXT_SYNONYM, e);
    }
    if e == 0 { Some(0) } else { None }
}

// The buckets list count entries in all, each in its own.
pub fn buckets_ok(d: &[u32], entries: &[u32], n: u32, buckets: Buckets, count: u32) -> bool
    requires { 9 * n + 8 < length entries.now }
    ensures { result ≡ buckets_from (entry_word entries.now) (first_of d.now buckets.start) n buckets.many buckets.many 0 count }
{
    let mut left = count;
    for b in 0..buckets.many {
        let Some(rest) = bucket(d, entries, n, buckets, b, left) else {
            return false;
        };
        left = rest;
    }
    left == 0
}
