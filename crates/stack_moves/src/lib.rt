#![tactic(auto)]

ghost use Rattle.std.specs.Prelude.{◌≡◌};
ghost use Rattle.word_ops.specs.Hit.{boundary_to, boundary_up, boundaries_up, to_front};

use lists::Frame;

// The section that begins at a boundary now begins with entry n, which crosses into it.
#[tactic(auto, unfolding(word_ops::specs::Hit::boundary_to, words::specs::Words::val))]
pub fn boundary_to(dir: &mut [u32], f: Frame, boundary: usize, n: u32)
    ensures { dir.new ≡ boundary_to dir.old f.«at» boundary n }
{
    let section = words::get(dir, f.word_of(n, layout::SECTION));
    words::set_number(dir, f.word_of(n, layout::SECTION), section + 1);
    words::set_link(dir, boundary, n);
}

// Entry e goes to the front from a boundary or below: the boundary moves one resident towards the head, or to e, and e crosses out of
// its section.
#[tactic(auto, unfolding(word_ops::specs::Hit::boundary_up, word_ops::specs::Hit::boundary_past))]
fn boundary_up(dir: &mut [u32], f: Frame, e: u32, boundary: usize)
    ensures { dir.new ≡ boundary_up dir.old f.«at» e boundary }
{
    let b = words::get(dir, boundary);
    let above = words::get(dir, f.word_of(b, layout::TO_HEAD));
    let section = words::get(dir, f.word_of(e, layout::SECTION));
    words::set_number(
        dir,
        f.word_of(e, layout::SECTION),
        section.saturating_sub(1),
    );
    boundary_to(dir, f, boundary, values::or_else(above, e));
}

// The residents at positions N − Nold and Nnew, when entry e of a section goes to the front, with the sections of those that cross.
#[tactic(auto, unfolding(word_ops::specs::Hit::boundaries_up, word_ops::specs::Hit::old_boundary_up, word_ops::specs::Hit::new_boundary_up,))]
fn boundaries_up(dir: &mut [u32], f: Frame, e: u32, section: u32)
    ensures { dir.new ≡ boundaries_up dir.old f.«at» e section }
{
    if section == values::OLD {
        boundary_up(dir, f, e, layout::OLD_BOUNDARY);
    }
    if section != values::NEW {
        boundary_up(dir, f, e, layout::NEW_BOUNDARY);
    }
}

// Entry e, of that section, goes to the front of the stack. Inlined for speed: a frame by value then costs nothing.
#[inline(always)]
#[tactic(auto, unfolding(word_ops::specs::Hit::to_front))]
pub fn to_front(dir: &mut [u32], f: Frame, e: u32, section: u32)
    ensures { dir.new ≡ to_front dir.old f.«at» e section }
{
    boundaries_up(dir, f, e, section);
    f.stack().move_to_front(dir, e);
}
