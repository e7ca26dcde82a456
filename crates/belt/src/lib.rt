#![tactic(auto)]

ghost use Rattle.std.specs.Prelude.{◌≡◌, ◌+◌, ◌*◌, ◌/◌, ◌%◌, ◌≤◌, ◌<◌, min, length, get_or};
ghost use Rattle.layout.specs.Sound.{totals_in};
ghost use Rattle.promises.specs.Promises.{over};
ghost use Rattle.belt.specs.Belt.{word_of, words_of, input_words, incoming_bytes};
ghost use Rattle.belt.specs.Cycles.{ReadOff, Cycled};

use refusals::Refusal;
use settings::Settings;

const BELT: Settings = Settings {
    n: 4,
    nnew: 1,
    nold: 2,
    cmax: 3,
    amax: 100,
    b: 8,
    m: 64,
};

// The most bytes of the input that count.
const MOST_BYTES: usize = 4100;

// What the belt's batch gives beside its answers.
#[derive(Clone, Copy)]
pub struct Outcome {
    pub batch: Result<(), Refusal>,
    pub words: usize, // work words; an accepted batch has as many answers
    pub moves: u64, // block ins and block outs
    pub references: u64, // reads and writes
}

// Word i of bytes.
fn word_at(bytes: &[u8], i: usize) -> u32
    requires { 4 * i + 3 < length bytes.now }
    ensures { result ≡ get_or (words_of bytes.now) i 0 }
{
    let at = 4 * i;
    u32::from_le_bytes([bytes[at], bytes[at + 1], bytes[at + 2], bytes[at + 3]])
}

// How many words an input of so many bytes has.
fn word_count(bytes: usize) -> usize
    ensures { result ≡ min 4100 bytes / 4 }
{
    bytes.min(MOST_BYTES) / 4
}

// The work words of the input, at the front of `work`; how many they are.
pub fn decode(input: &[u8], work: &mut [u32]) -> usize
    requires { 1025 ≤ length work.old }
    ensures { (work.new ≡ over (input_words input.now) work.old) × (result ≡ length (input_words input.now)) }
{
    let n = word_count(input.len());
    for i in 0..n {
        work[i] = word_at(input, i);
    }
    n
}

// Byte i of the writes' bytes, 8 a write, the first write's 1.
fn mark(i: usize) -> u8
    ensures { result ≡ (1 + i / 8) % 256 }
{
    ((1 + i / 8) % 256) as u8
}

// The bytes for as many writes as a batch may have.
pub fn fill_incoming(incoming: &mut [u8])
    requires { length incoming.old ≡ 8192 }
    ensures { incoming.new ≡ incoming_bytes }
{
    for (i, byte) in incoming.iter_mut().enumerate() {
        *byte = mark(i);
    }
}

// The block ins and block outs carried out. Beside `header::references`: which two totals is all that either says.
fn moves(dir: &[u32]) -> u64
    ensures { result ≡ (totals_in dir.now).ins + (totals_in dir.now).outs }
{
    header::total_at(dir, layout::INS) + header::total_at(dir, layout::OUTS)
}

// The outcome, from the directory that the batch left.
fn read_off(dir: &[u32], work: &[u32], batch: Result<(), Refusal>) -> Outcome
    ensures { ReadOff work.now dir.now batch result }
{
    Outcome {
        batch,
        words: work.len(),
        moves: moves(dir),
        references: header::references(dir),
    }
}

// One batch of work words, from a fresh directory and a store of zeros.
fn run(
    work: &[u32],
    answers: &mut [u32],
    store: &mut [u8; 512],
    outgoing: &mut [u8; 8192],
) -> Outcome
    ensures { Cycled work.now answers.entry.now outgoing.old result
        (record { answers = answers.exit.now; store = store.new; outgoing = outgoing.new }) }
{
    let mut dir = [0u32; 70];
    let mut bytes = [0u8; 32];
    let mut incoming = [0u8; 8192];
    *store = [0u8; 512];
    fill_incoming(&mut incoming);
    // Belt is legal and 70 words are enough: it is accepted.
    let _ = fresh::fresh(BELT, &mut dir);
    let batch = cache::batch(
        &mut dir, &mut bytes, store, work, &incoming, answers, outgoing,
    );
    read_off(&dir, work, batch)
}

// The whole cycle: the batch that the input asks for. What `store` held before is given up.
pub fn cycle(
    input: &[u8],
    answers: &mut [u32],
    store: &mut [u8; 512],
    outgoing: &mut [u8; 8192],
) -> Outcome
    ensures { Cycled (input_words input.now) answers.entry.now outgoing.old result
        (record { answers = answers.exit.now; store = store.new; outgoing = outgoing.new }) }
{
    let mut work = [0u32; 1025];
    let n = decode(input, &mut work);
    run(&work[..n], answers, store, outgoing)
}
