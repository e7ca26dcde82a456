// Flush and tick: residents are written out, one block out each, and their modified and seen marks are cleared. A flush writes out every
// modified resident, a tick those that have already seen one; every other modified one has then seen it. Order, counts and pins stay.
#![tactic(auto)]

ghost use Rattle.std.specs.Prelude.{◌≡◌, List, [], ℕ, ◌+◌, ◌≤◌};
ghost use Rattle.basics.specs.Basics.{bit};
ghost use Rattle.stack.specs.Stack.{flushed};
ghost use Rattle.layout.specs.Sound.{settings_in};
ghost use Rattle.promises.specs.Demand3.{Memory};
ghost use Rattle.cache_steps.specs.Carried.{memory, Ready, Carried};
ghost use Rattle.cache_steps.specs.FlushLists.{sweep, chosen};
ghost use Rattle.cache_steps.specs.FlushStep.{Flushing};
ghost use Rattle.flushing.specs.Standing.{Standing, EntryReady};

use stack::Marks;

// Whether a resident with these marks is written out. By a flag, as the definition has it: flush and tick differ in this test alone. The
// modified mark first, and by itself: with both marks in one expression a tick takes half as long again.
fn goes_out(marks: Marks, tick: bool) -> bool
    ensures { result ≡ chosen tick marks }
{
    if !marks.modified {
        return false;
    }
    !tick || marks.seen
}

// What a flush or a tick does at the resident of entry e: it is written out, or has seen the tick, or stays; whether it went out.
fn flush_entry(
    dir: &mut [u32],
    bytes: &[u8],
    store: &mut [u8],
    size: u32,
    e: u32,
    tick: bool,
) -> bool
    requires { EntryReady (memory dir.old bytes.now store.old) size e }
    ensures { (start : Memory) (p n : ℕ) → Ready start
        → Flushing tick start p (memory dir.old bytes.now store.old) n
        → Standing dir.old p e
        → Flushing tick start (p + 1) (memory dir.new bytes.now store.new) (n + bit result) }
{
    let marks = directory::marks_of(dir, e);
    if goes_out(marks, tick) {
        let block = directory::block_of(dir, e);
        blocks::move_block(bytes, e - 1, store, block, size);
        directory::clean(dir, e);
        return true;
    }
    if marks.modified {
        directory::see_tick(dir, e);
    }
    false
}

// A flush or a tick: every resident from the head of the stack to the tail; how many were written out. Inlined for speed: each of the two
// then has its own loop.
#[inline(always)]
pub fn flush(dir: &mut [u32], bytes: &[u8], store: &mut [u8], size: u32, tick: bool) -> u32
    requires { Ready (memory dir.old bytes.now store.old) × (size ≡ (settings_in dir.old).b) }
    ensures { ((incoming : List ℕ) → Carried (memory dir.old bytes.now store.old) (sweep tick) incoming
        (memory dir.new bytes.now store.new) (flushed result) []) × (result ≤ 4096) }
{
    // The entry is carried along: a resident's turn changes the directory that says who is next.
    let mut e = directory::first(dir);
    let mut written = 0;
    for _ in 0..directory::residents(dir) {
        let behind = directory::next(dir, e);
        written += u32::from(flush_entry(dir, bytes, store, size, e, tick));
        e = behind;
    }
    written
}
