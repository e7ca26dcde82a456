#![tactic(auto)]

ghost use Rattle.std.specs.Prelude.{◌≡◌, ◌^◌, ◌≤◌, ◌<◌, length};
ghost use Rattle.basics.specs.Basics.{first};
ghost use Rattle.refusals.specs.Refusals.{outcome};
ghost use Rattle.stack.specs.Batch.{work, memory_tests, batch_tests};
ghost use Rattle.batch_number.specs.Tallies.{meant, plus, tally};

use refusals::Refusal;
use settings::{Legal, Settings};
use stack::Lengths;

// The most words of a batch, and the most reads and writes carried out: 2^56 − 1.
pub const MOST_WORDS: usize = 1024;

const MOST_REFERENCES: u64 = 72057594037927935;

// A work word; what has a block has one of the store.
#[derive(Clone, Copy, Debug, PartialEq, Eq)]
pub enum Work {
    Read(u32),
    Write(u32),
    Purge(u32),
    Flush,
    Tick,
    Pin(u32),
    Unpin(u32),
}

// What a work word asks for by its kind, the top 4 bits, and its value, the low 28; none where it is invalid.
#[tactic(auto, unfolding(stack::specs::Batch::work))]
pub fn decode(s: Settings, word: u32) -> Option<Work>
    ensures { meant result ≡ work s word }
{
    let kind = word / words::VALUES;
    let value = word % words::VALUES;
    // Tested before the match below: with a guard in each arm that is a jump by a table for each word, slow where kinds are mixed.
    let valid = match kind {
        4..=5 => value == 0,
        _ => value < s.m,
    };
    if !valid {
        return None;
    }
    match kind {
        1 => Some(Work::Read(value)),
        2 => Some(Work::Write(value)),
        3 => Some(Work::Purge(value)),
        4 => Some(Work::Flush),
        5 => Some(Work::Tick),
        6 => Some(Work::Pin(value)),
        7 => Some(Work::Unpin(value)),
        _ => None,
    }
}

// How many words of a batch are reads, writes and invalid.
#[derive(Clone, Copy)]
struct Tally {
    reads: u32,
    writes: u32,
    invalid: u32,
}

// A tally with one work word more.
fn and_word(s: Settings, t: Tally, word: u32) -> Tally
    requires { (t.reads < 4294967295) × (t.writes < 4294967295) × (t.invalid < 4294967295) }
    ensures { result ≡ plus t (work s word) }
{
    match decode(s, word) {
        Some(Work::Read(_)) => Tally {
            reads: t.reads + 1,
            ..t
        },
        Some(Work::Write(_)) => Tally {
            writes: t.writes + 1,
            ..t
        },
        Some(_) => t,
        None => Tally {
            invalid: t.invalid + 1,
            ..t
        },
    }
}

// The tally of a batch's words. Called once a batch, and not inlined: the loop keeps its numbers in registers then.
#[inline(never)]
fn count(s: Settings, work: &[u32]) -> Tally
    requires { length work.now < 4294967295 }
    ensures { result ≡ tally s work.now }
{
    let mut t = Tally {
        reads: 0,
        writes: 0,
        invalid: 0,
    };
    for word in work {
        t = and_word(s, t, *word);
    }
    t
}

// Why the lengths of data and store are refused: data needs N blocks or more, the store exactly M.
pub fn memory_number(legal: Legal, bytes: usize, store: usize) -> Result<(), Refusal>
    ensures { outcome result ≡ first (memory_tests legal.of bytes store) }
{
    let b = legal.of.b as usize;
    let data_bytes = legal.of.n as usize * b;
    if bytes < data_bytes {
        return Err(Refusal::ShortDataOrStore);
    }
    let store_bytes = legal.of.m as usize * b;
    if store < store_bytes {
        return Err(Refusal::ShortDataOrStore);
    }
    if store > store_bytes {
        return Err(Refusal::LongStore);
    }
    Ok(())
}

// Why a batch is refused, by the settings, the reads and writes carried out, the words and the lengths lent.
#[tactic(auto, unfolding(stack::specs::Batch::batch_tests, stack::specs::Batch::word_tests, crate::specs::Tallies::tally))]
pub fn batch_number(
    legal: Legal,
    references: u64,
    work: &[u32],
    lent: Lengths,
) -> Result<(), Refusal>
    requires { references ≤ 2 ^ 57 }
    ensures { outcome result ≡ first (batch_tests legal.of references work.now lent) }
{
    memory_number(legal, lent.bytes, lent.store)?;
    if work.len() > MOST_WORDS {
        return Err(Refusal::TooManyWords);
    }
    let t = count(legal.of, work);
    if t.invalid > 0 {
        return Err(Refusal::BadWord);
    }
    let b = legal.of.b as usize;
    if lent.answers < work.len()
        || lent.incoming < t.writes as usize * b
        || lent.outgoing < t.reads as usize * b
    {
        return Err(Refusal::ShortBuffer);
    }
    if references + (work.len() as u64) > MOST_REFERENCES {
        return Err(Refusal::TotalsFull);
    }
    Ok(())
}
