#![tactic(auto)]

ghost use Rattle.std.specs.Prelude.{◌≡◌};
ghost use Rattle.word_ops.specs.Buckets.{bucket_joined, bucket_left};

use lists::Frame;

// Entry e takes a block, and becomes the first that the block's bucket lists.
#[tactic(auto, unfolding(word_ops::specs::Buckets::bucket_joined))]
pub fn bucket_join(dir: &mut [u32], f: Frame, bucket: usize, e: u32, block: u32)
    ensures { dir.new ≡ bucket_joined dir.old f.«at» bucket e block }
{
    let first = words::get(dir, bucket);
    words::set_number(dir, f.word_of(e, layout::BLOCK), block);
    words::set_link(dir, f.word_of(e, layout::NEXT_SYNONYM), first);
    words::set_link(dir, bucket, e);
}

// Takes entry e out of its bucket.
#[tactic(auto, unfolding(word_ops::specs::Buckets::bucket_left, word_ops::specs::Buckets::bucket_left_after))]
pub fn bucket_leave(dir: &mut [u32], f: Frame, bucket: usize, e: u32)
    ensures { dir.new ≡ bucket_left dir.old f.«at» f.links bucket e }
{
    let first = words::get(dir, bucket);
    let before = search::synonym_before(dir, f.entries(), e, first);
    let next = words::get(dir, f.word_of(e, layout::NEXT_SYNONYM));
    words::set_link(
        dir,
        lists::slot(bucket, f.at, before, layout::NEXT_SYNONYM),
        next,
    );
    words::set_link(dir, f.word_of(e, layout::NEXT_SYNONYM), 0);
}
