// Block ins of OPT on a trace of read words. Whom OPT replaces shows in nothing but which later reads are hits: a word for each position of
// the trace says whether the read there is awaited, the next one of a resident. A resident that is never read again has no such word, and is
// replaced before any that has.
#![tactic(auto)]

ghost use Rattle.std.specs.Prelude.{◌≡◌, ◌+◌, ◌≤◌, length, drop, replicate};
ghost use Rattle.basics.specs.Basics.{index_of};
ghost use Rattle.opt.specs.Opt.{opt_ins};
ghost use Rattle.opt.specs.Ins.{trace_of, most_reads};
ghost use Rattle.opt_ins.specs.Awaited.{last_awaited, room_awaited, room_waiting, note_awaited, note_waiting, step_awaited, step_waiting};
ghost use Rattle.opt_ins.specs.Awaited.{RoomReady, StepReady, TraceReady};

// The most words of a trace.
pub const MOST_READS: usize = 4096;

// What the words of the positions say. Numbers, not flags: a miss is counted by 1 less such a word.
const AWAITED: u32 = 1;

const NOT_AWAITED: u32 = 0;

// The first read of a block from a position on. The trace's length is none, as the definitions have it: further than any read.
fn next_read(trace: &[u32], block: u32, from: usize) -> usize
    requires { from ≤ length trace.now }
    ensures { result ≡ from + index_of block (drop from (trace_of trace.now)) }
{
    for j in from..trace.len() {
        if trace[j] % words::VALUES == block {
            return j;
        }
    }
    trace.len()
}

// The last position below len that is awaited, or 0. The room is of a fixed size: the trace's length comes beside it.
fn last_awaited(awaited: &[u32], len: usize) -> usize
    requires { len ≤ length awaited.now }
    ensures { result ≡ last_awaited awaited.now len }
{
    for j in (0..len).rev() {
        if awaited[j] == AWAITED {
            return j;
        }
    }
    0
}

// Position i is read: a hit is awaited no longer; at a miss where n reads are awaited the last of them is given up, as its resident is
// replaced. How many are then awaited, besides the one at i.
fn make_room(awaited: &mut [u32], i: usize, len: usize, waiting: u32, n: u32) -> u32
    requires { RoomReady awaited.old i len waiting n }
    ensures { (result ≡ room_waiting awaited.old i waiting n)
        × (awaited.new ≡ room_awaited awaited.old i len waiting n) }
{
    if awaited[i] != NOT_AWAITED {
        return waiting - 1;
    }
    if waiting < n {
        return waiting;
    }
    let last = last_awaited(awaited, len);
    awaited[last] = NOT_AWAITED;
    waiting - 1
}

// The block read is awaited at its next read, if there is one. How many are then awaited.
fn note(awaited: &mut [u32], next: usize, len: usize, waiting: u32) -> u32
    requires { (len ≤ length awaited.old) × (waiting ≤ 4096) }
    ensures { (result ≡ note_waiting next len waiting) × (awaited.new ≡ note_awaited awaited.old next len) }
{
    if next < len {
        awaited[next] = AWAITED;
        return waiting + 1;
    }
    waiting
}

// One read of the trace; how many are then awaited.
fn step(awaited: &mut [u32], trace: &[u32], i: usize, waiting: u32, n: u32) -> u32
    requires { StepReady awaited.old trace.now i waiting n }
    ensures { (result ≡ step_waiting awaited.old trace.now i waiting n)
        × (awaited.new ≡ step_awaited awaited.old trace.now i waiting n) }
{
    let left = make_room(awaited, i, trace.len(), waiting, n);
    let next = next_read(trace, trace[i] % words::VALUES, i + 1);
    note(awaited, next, trace.len(), left)
}

// The trace is read, with no read awaited at first; the misses.
fn run(awaited: &mut [u32], trace: &[u32], n: u32) -> u32
    requires { (awaited.old ≡ replicate most_reads 0) × TraceReady trace.now n }
    ensures { result ≡ opt_ins n (trace_of trace.now) }
{
    let mut waiting = 0;
    let mut ins = 0;
    for i in 0..trace.len() {
        ins += 1 - awaited[i];
        waiting = step(awaited, trace, i, waiting, n);
    }
    ins
}

// The block ins of OPT with n blocks on a trace, from empty.
pub fn ins(trace: &[u32], n: u32) -> u32
    requires { TraceReady trace.now n }
    ensures { result ≡ opt_ins n (trace_of trace.now) }
{
    let mut awaited = [NOT_AWAITED; MOST_READS];
    run(&mut awaited, trace, n)
}
