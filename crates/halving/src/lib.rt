#![tactic(auto)]

ghost use Rattle.std.specs.Prelude.{◌≡◌};
ghost use Rattle.words.specs.Words.{set_link};
ghost use Rattle.layout.specs.Addresses.{chain_head, chain_tail};
ghost use Rattle.word_ops.specs.Halve.{chains_cleared, halved_entry, halved_up, halved, over_average, settled};

use lists::Frame;

// Count chain i becomes empty.
fn chain_clear(dir: &mut [u32], i: u32)
    ensures { dir.new ≡ set_link (set_link dir.old (chain_head i) 0) (chain_tail i) 0 }
{
    words::set_link(dir, lists::chain_head(i), 0);
    words::set_link(dir, lists::chain_tail(i), 0);
}

// Count chains 1 to Cmax become empty.
fn chains_clear(dir: &mut [u32], f: Frame)
    ensures { dir.new ≡ chains_cleared dir.old f.cmax }
{
    for i in 1..=f.cmax {
        chain_clear(dir, i);
    }
}

// The count of entry e is halved, rounded up, and e put before those of its chain that are below it in the stack.
#[tactic(auto, unfolding(word_ops::specs::Halve::halved_entry, word_ops::specs::Halve::halved_to, words::specs::Words::val))]
fn halve_entry(dir: &mut [u32], f: Frame, e: u32)
    ensures { dir.new ≡ halved_entry dir.old f.«at» f.cmax e }
{
    let count = words::get(dir, f.word_of(e, layout::COUNT));
    let next = values::half_count(count);
    count_moves::count_set(dir, f, e, count, next);
    count_moves::chain_join(dir, f, e, next);
}

// The counts of n residents are halved, from `first` towards the head.
fn halve_up(dir: &mut [u32], f: Frame, n: u32, first: u32)
    ensures { dir.new ≡ halved_up dir.old f.«at» f.cmax n first }
{
    let mut e = first;
    for _ in 0..n {
        let above = words::get(dir, f.word_of(e, layout::TO_HEAD));
        halve_entry(dir, f, e);
        e = above;
    }
}

// The counts of all residents are halved: the chains are emptied, and filled again from the stack's tail up.
#[tactic(auto, unfolding(word_ops::specs::Halve::halved))]
fn halve(dir: &mut [u32], f: Frame)
    ensures { dir.new ≡ halved dir.old f.«at» f.cmax }
{
    let r = words::get(dir, layout::RESIDENTS);
    let tail = words::get(dir, layout::TAIL);
    chains_clear(dir, f);
    halve_up(dir, f, r, tail);
}

// The counts are looked at: they are halved, once, where their sum exceeds Amax × r, with r as it is now; whether they were.
#[tactic(auto, unfolding(words::specs::Words::val))]
pub fn settle(dir: &mut [u32], f: Frame, amax: u32) -> bool
    ensures { (result ≡ over_average dir.old amax) × (dir.new ≡ settled dir.old f.«at» f.cmax amax) }
{
    let limit = u64::from(amax) * u64::from(words::get(dir, layout::RESIDENTS));
    let over = limit < u64::from(words::get(dir, layout::SUM));
    if over {
        halve(dir, f);
    }
    over
}
