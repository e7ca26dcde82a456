#![tactic(auto)]

ghost use Rattle.std.specs.Prelude.{◌≡◌, ◌^◌, ◌<◌};
ghost use Rattle.word_ops.specs.Enter.{boundary_pushed, boundary_pushed_if, stack_entered, filled, entered, replaced};

use lists::Frame;

// The count of a block that enters.
const FIRST_COUNT: u32 = 1;

// A block that enters: the word of its bucket, the block, and its modified word.
#[derive(Clone, Copy)]
pub struct Incoming {
    pub bucket: usize,
    pub block: u32,
    pub mark: u32,
}

// One more stands above the resident at a boundary: the one above it now stands there, or the tail where there was none.
#[tactic(auto, unfolding(word_ops::specs::Enter::boundary_pushed))]
fn boundary_pushed(dir: &mut [u32], f: Frame, boundary: usize)
    ensures { dir.new ≡ boundary_pushed dir.old f.«at» boundary }
{
    let b = words::get(dir, boundary);
    let n = words::get(dir, lists::slot(layout::TAIL, f.stack().at, b, lists::UP));
    stack_moves::boundary_to(dir, f, boundary, n);
}

// The same, where r residents stood in the stack and the boundary is at a position.
#[tactic(auto, unfolding(word_ops::specs::Enter::boundary_pushed_if))]
fn boundary_pushed_if(dir: &mut [u32], f: Frame, boundary: usize, position: u32, r: u32)
    ensures { dir.new ≡ boundary_pushed_if dir.old f.«at» boundary position r }
{
    if position <= r {
        boundary_pushed(dir, f, boundary);
    }
}

// The first unused entry, e, goes to the front of a stack of r residents.
#[tactic(auto, unfolding(word_ops::specs::Enter::stack_entered))]
fn stack_enter(dir: &mut [u32], f: Frame, new: u32, old: u32, e: u32, r: u32)
    requires { r < 2 ^ 28 }
    ensures { dir.new ≡ stack_entered dir.old f.«at» new old e r }
{
    let unused = words::get(dir, f.word_of(e, layout::TO_TAIL));
    words::set_link(dir, layout::UNUSED, unused);
    f.stack().push_front(dir, e);
    boundary_pushed_if(dir, f, layout::OLD_BOUNDARY, old, r);
    boundary_pushed_if(dir, f, layout::NEW_BOUNDARY, new, r);
    words::set_number(dir, layout::RESIDENTS, r + 1);
}

// Entry e takes the modified word and the block, into its bucket.
#[tactic(auto, unfolding(word_ops::specs::Enter::filled))]
fn fill(dir: &mut [u32], f: Frame, e: u32, b: Incoming)
    ensures { dir.new ≡ filled dir.old f.«at» b.bucket e b.block b.mark }
{
    words::set_number(dir, f.word_of(e, layout::MODIFIED), b.mark);
    bucket_moves::bucket_join(dir, f, b.bucket, e, b.block);
}

// A block enters the first unused entry: with count 1 to the front of the stack, into its chain and its bucket. The positions `new` and
// `old` are Nnew and N − Nold.
#[tactic(auto, unfolding(word_ops::specs::Enter::entered, word_ops::specs::Enter::entered_as, words::specs::Words::val))]
pub fn enter(dir: &mut [u32], f: Frame, new: u32, old: u32, b: Incoming)
    ensures { dir.new ≡ entered dir.old f.«at» f.cmax new old b.bucket b.block b.mark }
{
    let e = words::get(dir, layout::UNUSED);
    let r = words::get(dir, layout::RESIDENTS);
    stack_enter(dir, f, new, old, e, r);
    count_moves::count_set(dir, f, e, 0, FIRST_COUNT);
    count_moves::chain_join(dir, f, e, FIRST_COUNT);
    fill(dir, f, e, b);
}

// A block takes over entry e, the victim's, whose block is in the bucket at the word `from`.
#[tactic(auto, unfolding(word_ops::specs::Enter::replaced, word_ops::specs::Enter::replaced_from))]
pub fn replace(dir: &mut [u32], f: Frame, from: usize, e: u32, b: Incoming)
    ensures { dir.new ≡ replaced dir.old f.«at» f.cmax f.links from b.bucket e b.block b.mark }
{
    let section = words::get(dir, f.word_of(e, layout::SECTION));
    let count = words::get(dir, f.word_of(e, layout::COUNT));
    stack_moves::to_front(dir, f, e, section);
    count_moves::recount(dir, f, e, count, FIRST_COUNT);
    bucket_moves::bucket_leave(dir, f, from, e);
    fill(dir, f, e, b);
}
