// Occupancy by count class: how many residents each class has, and how many of these are modified. Nothing is written.
#![tactic(auto)]

ghost use Rattle.std.specs.Prelude.{◌≡◌, List, [], ◌∷◌, ◌++◌, ℕ, T, IfOk, IfErr, replicate};
ghost use Rattle.refusals.specs.Refusals.{outcome};
ghost use Rattle.stack.specs.Recency.{Resident};
ghost use Rattle.stack.specs.Occupancy.{class_of, table};
ghost use Rattle.layout.specs.Sound.{sound, resident_at, residents_in};
ghost use Rattle.promises.specs.Occupancy.{occupancy_number, table_in};
ghost use Rattle.occupancy.specs.Walk.{Shows, Room};

use refusals::Refusal;

// How many classes there are.
pub const CLASSES: usize = 8;

// For each class its residents, and how many of these are modified. Two columns, and not an array of classes: the scope's table and C have
// the one column behind the other.
#[derive(Clone, Copy)]
pub struct Table {
    pub residents: [u32; CLASSES],
    pub modified: [u32; CLASSES],
}

// The class of a count, by its place among the eight; their number for what is no count. One match with ranges, as the scope names it.
fn class_of(count: u32) -> usize
    ensures { result ≡ class_of count }
{
    match count {
        1 => 0,
        2 => 1,
        3..=4 => 2,
        5..=8 => 3,
        9..=16 => 4,
        17..=64 => 5,
        65..=1000 => 6,
        1001..=65535 => 7,
        _ => CLASSES,
    }
}

// The resident of entry e is counted in its class.
fn and_resident(dir: &[u32], e: u32, figures: &mut Table)
    requires { T (sound dir.now) × Room figures.old (resident_at dir.now e).count }
    ensures { (l : List (Resident ℕ)) → Shows figures.old (table l) → Shows figures.new (table (l ++ (resident_at dir.now e ∷ []))) }
{
    // Both are read before either is counted: a store between two reads makes the back end read the header again.
    let class = class_of(directory::count_of(dir, e));
    let modified = u32::from(directory::marks_of(dir, e).modified);
    figures.residents[class] += 1;
    figures.modified[class] += modified;
}

// The table of a sound directory, resident by resident along the stack.
fn table_of(dir: &[u32]) -> Table
    requires { T (sound dir.now) }
    ensures { Shows result (table (residents_in dir.now)) }
{
    let mut figures = Table {
        residents: [0; CLASSES],
        modified: [0; CLASSES],
    };
    let mut e = directory::first(dir);
    for _ in 0..directory::residents(dir) {
        and_resident(dir, e, &mut figures);
        e = directory::next(dir, e);
    }
    figures
}

// The occupancy of a directory, for any slice of words. Where they are not sound, the table that a refusal stands for has sixteen 0s.
#[tactic(auto, unfolding(promises::specs::Occupancy::occupancy_number, promises::specs::Occupancy::table_in))]
pub fn occupancy(dir: &[u32]) -> Result<Table, Refusal>
    ensures number { outcome result ≡ occupancy_number dir.now }
    ensures figures { IfOk result (λ t. (t.residents ≡ (table_in dir.now).residents) × (t.modified ≡ (table_in dir.now).modified)) }
    ensures none { IfErr result (λ why. (table_in dir.now).residents ++ (table_in dir.now).modified ≡ replicate 16 0) }
{
    if !soundness::sound(dir) {
        return Err(Refusal::Unsound);
    }
    Ok(table_of(dir))
}
