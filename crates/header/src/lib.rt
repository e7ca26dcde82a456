#![tactic(auto)]

ghost use Rattle.std.specs.Prelude.{◌≡◌, ◌+◌, ◌<◌};
ghost use Rattle.layout.specs.Sound.{settings_in, total_at, totals_in};

use settings::Settings;

// The totals since fresh.
#[derive(Clone, Copy, Debug, PartialEq, Eq)]
pub struct Totals {
    pub reads: u64, // read words carried out, hits included
    pub writes: u64, // write words
    pub ins: u64, // blocks copied in from the store
    pub outs: u64, // blocks written to it
}

// The settings that a directory's header holds.
#[tactic(auto, unfolding(layout::specs::Sound::settings_in))]
pub fn settings_in(dir: &[u32]) -> Settings
    ensures { result ≡ settings_in dir.now }
{
    Settings {
        n: words::get(dir, layout::CACHE_BLOCKS),
        nnew: words::get(dir, layout::NEW_BLOCKS),
        nold: words::get(dir, layout::OLD_BLOCKS),
        cmax: words::get(dir, layout::CHAIN_LIMIT),
        amax: words::get(dir, layout::AVERAGE_LIMIT),
        b: words::get(dir, layout::BLOCK_SIZE),
        m: words::get(dir, layout::STORE_BLOCKS),
    }
}

// A total, from its two words: value mod 2^28, then value div 2^28.
pub fn total_at(dir: &[u32], word: usize) -> u64
    requires { word < 100 }
    ensures { result ≡ total_at dir.now word }
{
    u64::from(words::get(dir, word))
        + u64::from(words::VALUES) * u64::from(words::get(dir, word + 1))
}

// The read words and write words carried out.
#[tactic(auto, using(words::specs::WordLaws::val_small), unfolding(layout::specs::Sound::totals_in))]
pub fn references(dir: &[u32]) -> u64
    ensures { result ≡ (totals_in dir.now).reads + (totals_in dir.now).writes }
{
    total_at(dir, layout::READS) + total_at(dir, layout::WRITES)
}

// The totals that a directory's header holds.
#[tactic(auto, unfolding(layout::specs::Sound::totals_in))]
pub fn totals_in(dir: &[u32]) -> Totals
    ensures { (result.reads ≡ (totals_in dir.now).reads) × (result.writes ≡ (totals_in dir.now).writes)
        × (result.ins ≡ (totals_in dir.now).ins) × (result.outs ≡ (totals_in dir.now).outs) }
{
    Totals {
        reads: total_at(dir, layout::READS),
        writes: total_at(dir, layout::WRITES),
        ins: total_at(dir, layout::INS),
        outs: total_at(dir, layout::OUTS),
    }
}
