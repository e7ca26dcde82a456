#![tactic(auto)]

ghost use Rattle.std.specs.Prelude.{◌≡◌, ◌<◌, MatchOption};
ghost use Rattle.word_ops.specs.Buckets.{synonym_before, searched, found};
ghost use Rattle.word_ops.specs.Victim.{reaches, is_pinned_entry, over_pinned, chain_last, stack_last, or_all_pinned, victim_from};

use lists::Entries;
use word_ops::Picked;

// The entry with that block from the synonym `first` on, within so many links. A link of 0 ends the list.
pub fn find_from(dir: &[u32], f: Entries, block: u32, links: u32, first: u32) -> Option<u32>
    ensures { result ≡ searched dir.now f.«at» block links first }
{
    let mut e = first;
    for _ in 0..links {
        if e == 0 {
            return None;
        }
        if words::get(dir, f.word_of(e, layout::BLOCK)) == block {
            return Some(e);
        }
        e = words::get(dir, f.word_of(e, layout::NEXT_SYNONYM));
    }
    None
}

// A lookup: the entry with that block among the residents that its bucket lists, or that the block is absent.
#[tactic(auto, unfolding(word_ops::specs::Buckets::found))]
pub fn find(dir: &[u32], f: Entries, links: u32, bucket: usize, block: u32) -> Option<u32>
    ensures { result ≡ found dir.now f.«at» links bucket block }
{
    find_from(dir, f, block, links, words::get(dir, bucket))
}

// The synonym before e in a bucket, from `first` on; 0 where e is the first, the way that a link says none: `lists::slot` takes it so.
pub fn synonym_before(dir: &[u32], f: Entries, e: u32, first: u32) -> u32
    ensures { result ≡ synonym_before dir.now f.«at» e f.links first 0 }
{
    let mut x = first;
    let mut q = 0;
    for _ in 0..f.links {
        if x == e {
            return q;
        }
        q = x;
        x = words::get(dir, f.word_of(x, layout::NEXT_SYNONYM));
    }
    q
}

// Whether entry e is a resident of that section or of a less recent one.
#[tactic(auto, unfolding(word_ops::specs::Victim::reaches))]
fn reaches(dir: &[u32], f: Entries, section: u32, e: u32) -> bool
    ensures { result ≡ reaches dir.now f.«at» section e }
{
    e != 0 && words::get(dir, f.word_of(e, layout::SECTION)) >= section
}

// Whether the resident e is pinned.
#[tactic(auto, unfolding(word_ops::specs::Victim::is_pinned_entry))]
fn is_pinned_entry(dir: &[u32], f: Entries, e: u32) -> bool
    ensures { result ≡ is_pinned_entry dir.now f.«at» e }
{
    values::is_pinned(words::get(dir, f.word_of(e, layout::MODIFIED)))
}

// From `first` on along a link word towards the head, past pinned residents: the first unpinned one, if the list or the section does not
// end before.
fn over_pinned(dir: &[u32], f: Entries, section: u32, word: u32, first: u32) -> Option<u32>
    ensures { MatchOption result (over_pinned dir.now f.«at» section word f.links first ≡ 0)
        (λ e. (0 < e) × (over_pinned dir.now f.«at» section word f.links first ≡ e)) }
{
    let mut e = first;
    for _ in 0..f.links {
        if !reaches(dir, f, section, e) {
            return None;
        }
        if !is_pinned_entry(dir, f, e) {
            return Some(e);
        }
        e = words::get(dir, f.word_of(e, word));
    }
    None
}

// The last unpinned old resident of count chain i.
#[tactic(auto, unfolding(word_ops::specs::Victim::chain_last))]
fn chain_last(dir: &[u32], f: Entries, i: u32) -> Option<u32>
    ensures { MatchOption result (chain_last dir.now f.«at» f.links i ≡ 0) (λ e. (0 < e) × (chain_last dir.now f.«at» f.links i ≡ e)) }
{
    let tail = words::get(dir, lists::chain_tail(i));
    over_pinned(dir, f, values::OLD, layout::CHAIN_TO_HEAD, tail)
}

// The least recent resident that isn't pinned, whatever its section, after a look at all chains.
#[tactic(auto, unfolding(word_ops::specs::Victim::stack_last, word_ops::specs::Victim::or_all_pinned))]
fn least_recent(dir: &[u32], f: Entries, chains: u32) -> Option<Picked>
    ensures { result ≡ or_all_pinned chains (stack_last dir.now f.«at» f.links) }
{
    let tail = words::get(dir, layout::TAIL);
    let entry = over_pinned(dir, f, values::NEW, layout::TO_HEAD, tail)?;
    Some(Picked { entry, chains })
}

// The victim: the last unpinned old resident of the first count chain that has one, else the stack's last unpinned one; with the chains
// looked at.
pub fn victim(dir: &[u32], f: Entries, cmax: u32) -> Option<Picked>
    ensures { result ≡ victim_from dir.now f.«at» f.links cmax 1 }
{
    for chains in 1..=cmax {
        if let Some(entry) = chain_last(dir, f, chains) {
            return Some(Picked { chains, entry });
        }
    }
    least_recent(dir, f, cmax)
}
