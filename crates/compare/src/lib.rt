// What the new rule gains on a trace of reads: block ins under LRU, under the chosen settings and under OPT. The two caches are run by
// what reads and writes go by in a batch, one after the other, in a directory on the stack: none is lent.
#![tactic(auto)]

ghost use Rattle.std.specs.Prelude.{◌≡◌, ◌≤◌, pos, ◌-ℤ◌, Ok, IfOk};
ghost use Rattle.basics.specs.Lists.{all};
ghost use Rattle.refusals.specs.Refusals.{outcome};
ghost use Rattle.layout.specs.Sound.{totals_in};
ghost use Rattle.opt.specs.Ins.{ins_of, lru, trace_of};
ghost use Rattle.compare.specs.Compare.{is_trace_read, is_no_trace, compare_number, figures, compared, shown};
ghost use Rattle.compare.specs.Reading.{ReadReady, ReadDone, Trace, FreshIn};

use batch_number::Work;
use refusals::Refusal;
use settings::{Legal, Settings};

// The words of the longest directory: 24, 2 × 64 for the chains, 4,096 buckets, 9 × 4,096 for the entries.
const MOST_WORDS: usize = 41112;

// The five figures: block ins, and what is gained of them.
#[derive(Clone, Copy, Debug, PartialEq, Eq)]
pub struct Figures {
    pub lru: u32,
    pub chosen: u32,
    pub opt: u32,
    pub gain: i32, // LRU − chosen
    pub possible: u32, // LRU − OPT; where it is 0, the gain is 0 too
}

// ---- a cache on a trace

// A block is read, as the cache reads it but for the bytes: no resident is ever modified, so no data and no store are needed.
fn read(dir: &mut [u32], block: u32, s: Settings)
    requires { ReadReady dir.old s block }
    ensures { ReadDone dir.old s block dir.new }
{
    let bytes = [0u8; 1];
    let mut store = [0u8; 1];
    accesses::access(dir, &bytes, &mut store, block, false, s);
}

// A trace is read in a fresh directory, which counts the block ins.
fn run(dir: &mut [u32], trace: &[u32], s: Settings)
    requires { FreshIn dir.old s × Trace s trace.now }
    ensures { (totals_in dir.new).ins ≡ ins_of s (trace_of trace.now) }
{
    for word in trace {
        read(dir, *word % words::VALUES, s);
    }
}

// The block ins of a cache with these settings on a trace, from empty.
pub fn ins(legal: Legal, trace: &[u32]) -> u32
    requires { Trace legal.of trace.now }
    ensures { result ≡ ins_of legal.of (trace_of trace.now) }
{
    let mut dir = [0u32; MOST_WORDS];
    // legal settings and enough words: it is accepted
    let _ = fresh::fresh(legal.of, &mut dir);
    run(&mut dir, trace, legal.of);
    header::totals_in(&dir).ins as u32
}

// ---- what is refused

// Whether a word is a read of a block below M.
fn is_trace_read(s: Settings, word: u32) -> bool
    ensures { result ≡ is_trace_read s word }
{
    let Some(work) = batch_number::decode(s, word) else {
        return false;
    };
    matches!(work, Work::Read(_))
}

// Whether every word is one.
fn all_reads(s: Settings, trace: &[u32]) -> bool
    ensures { result ≡ all (is_trace_read s) trace.now }
{
    for word in trace {
        if !is_trace_read(s, *word) {
            return false;
        }
    }
    true
}

// Whether it is over 4,096 words or has a word other than a read of a block below M.
fn is_no_trace(s: Settings, trace: &[u32]) -> bool
    ensures { result ≡ is_no_trace s trace.now }
{
    trace.len() > opt_ins::MOST_READS || !all_reads(s, trace)
}

// The settings as legal ones, or why a comparison is refused: the settings, then the trace.
pub fn check(s: Settings, trace: &[u32]) -> Result<Legal, Refusal>
    ensures number { outcome result ≡ compare_number s trace.now }
    ensures same { IfOk result (λ l. l.of ≡ s) }
{
    let legal = s.check()?;
    if is_no_trace(s, trace) {
        return Err(Refusal::BadTrace);
    }
    Ok(legal)
}

// ---- the comparison

// LRU: no new section, an old one of one block.
fn lru_of(legal: Legal) -> Legal
    ensures { result.of ≡ lru legal.of }
{
    Legal {
        of: Settings {
            nnew: 0,
            nold: 1,
            ..legal.of
        },
    }
}

// a − b, which may be negative.
fn minus(a: u32, b: u32) -> i32
    requires { (a ≤ 4096) × (b ≤ 4096) }
    ensures { result ≡ pos a -ℤ pos b }
{
    a as i32 - b as i32
}

// The figures, from the three ins.
fn figures_of(lru: u32, chosen: u32, opt: u32) -> Figures
    requires { (opt ≤ lru) × (lru ≤ 4096) × (chosen ≤ 4096) }
    ensures { shown (Ok result) ≡ figures lru chosen opt }
{
    let even = lru == opt;
    let gain = if even { 0 } else { minus(lru, chosen) };
    let possible = lru - opt;
    Figures {
        lru,
        chosen,
        opt,
        gain,
        possible,
    }
}

// What the new rule gains on a trace of reads.
pub fn compare(s: Settings, trace: &[u32]) -> Result<Figures, Refusal>
    ensures { shown result ≡ compared s trace.now }
{
    let legal = check(s, trace)?;
    let by_lru = ins(lru_of(legal), trace);
    let by_chosen = ins(legal, trace);
    Ok(figures_of(by_lru, by_chosen, opt_ins::ins(trace, s.n)))
}
