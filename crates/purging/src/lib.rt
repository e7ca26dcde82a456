#![tactic(auto)]

ghost use Rattle.std.specs.Prelude.{◌≡◌};
ghost use Rattle.word_ops.specs.Purge.{boundary_falls, boundary_down, boundaries_down, unused_first, stack_left};
ghost use Rattle.word_ops.specs.Purge.{unchained, blanked, purged};

use lists::Frame;

// Whether the boundary at resident b moves when e leaves the stack: e stands at it or above it.
// `inside` says that e stands at it or below.
fn boundary_falls(inside: bool, b: u32, e: u32) -> bool
    ensures { result ≡ boundary_falls inside b e }
{
    b != 0 && (!inside || b == e)
}

// A boundary, when entry e leaves the stack: where it moves, one resident towards the tail, the resident there crosses out of its section.
#[tactic(auto, unfolding(word_ops::specs::Purge::boundary_down, word_ops::specs::Purge::boundary_down_from))]
fn boundary_down(dir: &mut [u32], f: Frame, boundary: usize, inside: bool, e: u32)
    ensures { dir.new ≡ boundary_down dir.old f.«at» boundary inside e }
{
    let b = words::get(dir, boundary);
    if boundary_falls(inside, b, e) {
        let section = words::get(dir, f.word_of(b, layout::SECTION));
        let below = words::get(dir, f.word_of(b, layout::TO_TAIL));
        words::set_number(
            dir,
            f.word_of(b, layout::SECTION),
            section.saturating_sub(1),
        );
        words::set_link(dir, boundary, below);
    }
}

// The residents at positions N − Nold and Nnew, when entry e of a section leaves the stack.
#[tactic(auto, unfolding(word_ops::specs::Purge::boundaries_down))]
fn boundaries_down(dir: &mut [u32], f: Frame, e: u32, section: u32)
    ensures { dir.new ≡ boundaries_down dir.old f.«at» e section }
{
    boundary_down(dir, f, layout::OLD_BOUNDARY, section == values::OLD, e);
    boundary_down(dir, f, layout::NEW_BOUNDARY, section != values::NEW, e);
}

// Entry e, out of the stack, becomes the first unused one.
#[tactic(auto, unfolding(word_ops::specs::Purge::unused_first))]
fn unused_first(dir: &mut [u32], f: Frame, e: u32)
    ensures { dir.new ≡ unused_first dir.old f.«at» e }
{
    let unused = words::get(dir, layout::UNUSED);
    let r = words::get(dir, layout::RESIDENTS);
    words::set_number(dir, f.word_of(e, layout::SECTION), 0);
    words::set_link(dir, f.word_of(e, layout::TO_HEAD), 0);
    words::set_link(dir, f.word_of(e, layout::TO_TAIL), unused);
    words::set_link(dir, layout::UNUSED, e);
    words::set_number(dir, layout::RESIDENTS, r.saturating_sub(1));
}

// Takes entry e, of that section, out of the stack.
#[tactic(auto, unfolding(word_ops::specs::Purge::stack_left))]
fn stack_leave(dir: &mut [u32], f: Frame, e: u32, section: u32)
    ensures { dir.new ≡ stack_left dir.old f.«at» e section }
{
    boundaries_down(dir, f, e, section);
    f.stack().unlink(dir, e);
    unused_first(dir, f, e);
}

// Takes entry e out of the chain of its count, and leaves its chain links 0.
#[tactic(auto, unfolding(word_ops::specs::Purge::unchained, word_ops::specs::Purge::chain_links_cleared))]
fn unchain(dir: &mut [u32], f: Frame, e: u32, count: u32)
    ensures { dir.new ≡ unchained dir.old f.«at» f.cmax e count }
{
    count_moves::chain_leave(dir, f, e, count);
    words::set_link(dir, f.word_of(e, layout::CHAIN_TO_HEAD), 0);
    words::set_link(dir, f.word_of(e, layout::CHAIN_TO_TAIL), 0);
}

// Block, modified word and count of entry e become 0, and the count goes off the sum.
#[tactic(auto, unfolding(word_ops::specs::Purge::blanked))]
fn blank(dir: &mut [u32], f: Frame, e: u32, count: u32)
    ensures { dir.new ≡ blanked dir.old f.«at» e count }
{
    let sum = words::get(dir, layout::SUM);
    words::set_number(dir, f.word_of(e, layout::BLOCK), 0);
    words::set_number(dir, f.word_of(e, layout::MODIFIED), 0);
    words::set_number(dir, f.word_of(e, layout::COUNT), 0);
    words::set_number(dir, layout::SUM, sum.saturating_sub(count));
}

// Entry e, whose block is in the bucket at that word, becomes unused: out of stack, chain and bucket, its other values 0.
#[tactic(auto, unfolding(word_ops::specs::Purge::purged, word_ops::specs::Purge::purged_from))]
pub fn purge(dir: &mut [u32], f: Frame, bucket: usize, e: u32)
    ensures { dir.new ≡ purged dir.old f.«at» f.cmax f.links bucket e }
{
    let section = words::get(dir, f.word_of(e, layout::SECTION));
    let count = words::get(dir, f.word_of(e, layout::COUNT));
    stack_leave(dir, f, e, section);
    unchain(dir, f, e, count);
    bucket_moves::bucket_leave(dir, f, bucket, e);
    blank(dir, f, e, count);
}
