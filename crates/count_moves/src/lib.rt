#![tactic(auto)]

ghost use Rattle.std.specs.Prelude.{◌≡◌, ◌^◌, ◌<◌};
ghost use Rattle.words.specs.Words.{val};
ghost use Rattle.layout.specs.Addresses.{COUNT, SECTION};
ghost use Rattle.word_ops.specs.Lists.{word_of};
ghost use Rattle.word_ops.specs.Hit.{raised_count, chain_left, count_set, chain_joined, recounted, hit};

use lists::Frame;

// Takes entry e out of the chain of its count, if that has one.
#[tactic(auto, unfolding(word_ops::specs::Hit::chain_left))]
pub fn chain_leave(dir: &mut [u32], f: Frame, e: u32, count: u32)
    ensures { dir.new ≡ chain_left dir.old f.«at» f.cmax e count }
{
    if count <= f.cmax {
        f.chain(count).unlink(dir, e);
    }
}

// The count of entry e becomes another, and the sum of counts with it.
#[tactic(auto, unfolding(word_ops::specs::Hit::count_set, words::specs::Words::val))]
pub fn count_set(dir: &mut [u32], f: Frame, e: u32, count: u32, next: u32)
    requires { next < 2 ^ 28 }
    ensures { dir.new ≡ count_set dir.old f.«at» e count next }
{
    let sum = words::get(dir, layout::SUM);
    words::set_number(dir, f.word_of(e, layout::COUNT), next);
    words::set_number(dir, layout::SUM, (sum + next).saturating_sub(count));
}

// Entry e becomes the first of the chain of its count, or has chain links 0 where there is none.
#[tactic(auto, unfolding(word_ops::specs::Hit::chain_joined))]
pub fn chain_join(dir: &mut [u32], f: Frame, e: u32, count: u32)
    ensures { dir.new ≡ chain_joined dir.old f.«at» f.cmax e count }
{
    if count <= f.cmax {
        f.chain(count).push_front(dir, e);
    } else {
        words::set_link(dir, f.word_of(e, layout::CHAIN_TO_HEAD), 0);
        words::set_link(dir, f.word_of(e, layout::CHAIN_TO_TAIL), 0);
    }
}

// The count of entry e becomes another, and e the first of the chain of that. Inlined for speed, as the stack's move is.
#[inline(always)]
#[tactic(auto, unfolding(word_ops::specs::Hit::recounted))]
pub fn recount(dir: &mut [u32], f: Frame, e: u32, count: u32, next: u32)
    requires { next < 2 ^ 28 }
    ensures { dir.new ≡ recounted dir.old f.«at» f.cmax e count next }
{
    chain_leave(dir, f, e, count);
    count_set(dir, f, e, count, next);
    chain_join(dir, f, e, next);
}

// A hit on entry e: its count rises unless it is new, and it goes to the front of the stack and of its chain. The count after that.
#[tactic(auto, unfolding(word_ops::specs::Hit::hit, word_ops::specs::Hit::hit_from, words::specs::Words::val))]
pub fn hit(dir: &mut [u32], f: Frame, e: u32) -> u32
    ensures value { result ≡ raised_count (val dir.old (word_of f.«at» e SECTION)) (val dir.old (word_of f.«at» e COUNT)) }
    ensures dir_after { dir.new ≡ hit dir.old f.«at» f.cmax e }
{
    let section = words::get(dir, f.word_of(e, layout::SECTION));
    let count = words::get(dir, f.word_of(e, layout::COUNT));
    let next = values::raised_count(section, count);
    stack_moves::to_front(dir, f, e, section);
    recount(dir, f, e, count, next);
    next
}
