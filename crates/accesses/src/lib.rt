// One read, write, purge or pin: the directory first, then the bytes. Only the directory's contracts are relied on.
// Directory, data and store are lent apart and not as one struct: a purge and a pin have the directory alone, and a comparison lends no data.
#![tactic(auto)]

ghost use Rattle.std.specs.Prelude.{◌≡◌, ◌+◌, ◌*◌, ◌≤◌, T, length};
ghost use Rattle.basics.specs.Basics.{block_at};
ghost use Rattle.std.proofs.Math.Option.{none};
ghost use Rattle.stack.specs.Recency.{lookup};
ghost use Rattle.layout.specs.Sound.{settings_in, sound, residents_in};
ghost use Rattle.cache_steps.specs.Carried.{memory};
ghost use Rattle.accesses.specs.Done.{AskReady, AccessReady, AccessDone, ReadDone, WriteDone, PurgeDone, PinDone};

use answers::Answer;
use settings::Settings;

// Where the block is after a read or a write, its answer word, and whether it was resident before.
#[derive(Clone, Copy)]
pub struct Asked {
    pub entry: u32,
    // the answer word: made where the answer is known, which is faster than handing the answer on
    pub answer: u32,
    pub resident: bool,
}

// A block that no resident has enters an unused entry, or takes over the victim's, whose bytes go to the store if modified.
fn miss(
    dir: &mut [u32],
    bytes: &[u8],
    store: &mut [u8],
    block: u32,
    written: bool,
    s: Settings,
) -> Option<Asked>
    requires { AskReady (memory dir.old bytes.now store.old) s block × (lookup block (residents_in dir.old) ≡ none) }
    ensures { AccessDone (memory dir.old bytes.now store.old)
        block written dir.new store.new result }
{
    if directory::residents(dir) < s.n {
        let r = directory::enter(dir, block, written, s);
        return Some(Asked {
            entry: r.entry,
            answer: Answer::Entered { halved: r.halved }.word(),
            resident: false,
        });
    }
    // Not by `?`: the scope names `let .. else`, all pinned first.
    let Some(r) = directory::replace(dir, block, written, s) else {
        return None;
    };
    if r.out {
        blocks::move_block(bytes, r.entry - 1, store, r.victim, s.b);
    }
    Some(Asked {
        entry: r.entry,
        answer: Answer::Replaced {
            victim: r.victim,
            chains: r.chains,
            out: r.out,
        }
        .word(),
        resident: false,
    })
}

// The block is asked for, and a modified victim is written out; none where all are pinned. Where no resident is modified, data and store
// are not looked at and may be empty.
pub fn access(
    dir: &mut [u32],
    bytes: &[u8],
    store: &mut [u8],
    block: u32,
    written: bool,
    s: Settings,
) -> Option<Asked>
    requires { AskReady (memory dir.old bytes.now store.old) s block }
    ensures { AccessDone (memory dir.old bytes.now store.old)
        block written dir.new store.new result }
{
    let Some(e) = directory::lookup(dir, block, s) else {
        return miss(dir, bytes, store, block, written, s);
    };
    let r = directory::hit(dir, e, written, s);
    Some(Asked {
        entry: e,
        answer: Answer::Hit {
            count: r.count,
            halved: r.halved,
        }
        .word(),
        resident: true,
    })
}

// A read: the block's bytes become block j of the outgoing ones; zeros where all are pinned.
pub fn read(
    dir: &mut [u32],
    bytes: &mut [u8],
    store: &mut [u8],
    block: u32,
    outgoing: &mut [u8],
    j: u32,
    s: Settings,
) -> u32
    requires { AccessReady (memory dir.old bytes.old store.old) s block × (j * s.b + s.b ≤ length outgoing.old) }
    ensures { ReadDone (memory dir.old bytes.old store.old) block (memory dir.new bytes.new store.new) result s.b j outgoing.old outgoing.new }
{
    let Some(a) = access(dir, bytes, store, block, false, s) else {
        blocks::clear_block(outgoing, j, s.b);
        return Answer::AllPinned.word();
    };
    if !a.resident {
        blocks::move_block(store, block, bytes, a.entry - 1, s.b);
    }
    blocks::move_block(bytes, a.entry - 1, outgoing, j, s.b);
    a.answer
}

// A write: block j of the incoming bytes becomes the block's, unless all are pinned. No block comes in.
pub fn write(
    dir: &mut [u32],
    bytes: &mut [u8],
    store: &mut [u8],
    block: u32,
    incoming: &[u8],
    j: u32,
    s: Settings,
) -> u32
    requires { AccessReady (memory dir.old bytes.old store.old) s block × (j * s.b + s.b ≤ length incoming.now) }
    ensures { WriteDone (memory dir.old bytes.old store.old) block (block_at s.b j incoming.now) (memory dir.new bytes.new store.new) result }
{
    let Some(a) = access(dir, bytes, store, block, true, s) else {
        return Answer::AllPinned.word();
    };
    blocks::move_block(incoming, j, bytes, a.entry - 1, s.b);
    a.answer
}

// A purge: the resident leaves, its bytes are discarded. A pinned one stays.
pub fn purge(dir: &mut [u32], block: u32, s: Settings) -> u32
    requires { T (sound dir.old) × (s ≡ settings_in dir.old) }
    ensures { PurgeDone dir.old block dir.new result }
{
    let Some(e) = directory::lookup(dir, block, s) else {
        return Answer::Absent.word();
    };
    if directory::marks_of(dir, e).pinned {
        return Answer::PurgeRefused.word();
    }
    Answer::Purged {
        discarded: directory::purge(dir, e, s),
    }
    .word()
}

// A pin, or an unpin: of the resident, if there is one.
pub fn pin(dir: &mut [u32], block: u32, on: bool, s: Settings) -> u32
    requires { T (sound dir.old) × (s ≡ settings_in dir.old) }
    ensures { PinDone on dir.old block dir.new result }
{
    let Some(e) = directory::lookup(dir, block, s) else {
        return Answer::Absent.word();
    };
    directory::pin(dir, e, on);
    Answer::Pinned(on).word()
}
