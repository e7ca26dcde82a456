#![tactic(auto)]

ghost use Rattle.std.specs.Prelude.{◌≡◌, ◌+◌, ◌<◌};
ghost use Rattle.word_ops.specs.Totals.{total_raised, access_counted, in_counted, out_counted};

// The highest value of a word.
const VALUE_MOST: u32 = words::VALUES - 1;

// A total of the header, in two words from `low` on: its value mod 2^28, and its value div 2^28.
#[derive(Clone, Copy)]
pub struct Total {
    pub low: usize,
    pub ghost in_header: { low < 24 },
}

impl Total {
    pub const READS: Total = Total { low: layout::READS };

    pub const WRITES: Total = Total {
        low: layout::WRITES,
    };

    pub const INS: Total = Total { low: layout::INS };

    pub const OUTS: Total = Total { low: layout::OUTS };

    // The total goes up by one.
    #[tactic(auto, unfolding(word_ops::specs::Totals::total_raised, words::specs::Words::val))]
    pub fn raise(self, dir: &mut [u32])
        ensures { dir.new ≡ total_raised dir.old self.low (self.low + 1) }
    {
        let low = words::get(dir, self.low);
        if low < VALUE_MOST {
            words::set_number(dir, self.low, low + 1);
        } else {
            let high = words::get(dir, self.low + 1);
            words::set_number(dir, self.low, 0);
            words::set_number(dir, self.low + 1, high + 1);
        }
    }
}

// A read or a write more.
#[tactic(auto, unfolding(word_ops::specs::Totals::access_counted))]
pub fn access_count(dir: &mut [u32], written: bool)
    ensures { dir.new ≡ access_counted written dir.old }
{
    let total = if written { Total::WRITES } else { Total::READS };
    total.raise(dir);
}

// A block in more, unless the block is written.
#[tactic(auto, unfolding(word_ops::specs::Totals::in_counted))]
pub fn in_count(dir: &mut [u32], written: bool)
    ensures { dir.new ≡ in_counted written dir.old }
{
    if !written {
        Total::INS.raise(dir);
    }
}

// A block out more, where the modified word says modified.
#[tactic(auto, unfolding(word_ops::specs::Totals::out_counted))]
pub fn out_count(dir: &mut [u32], mark: u32)
    ensures { dir.new ≡ out_counted mark dir.old }
{
    if mark % 2 == layout::MARKED {
        Total::OUTS.raise(dir);
    }
}
