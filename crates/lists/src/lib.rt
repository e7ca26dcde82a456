#![tactic(auto)]

ghost use Rattle.std.specs.Prelude.{◌≡◌, ◌+◌, ◌≤◌, ◌<◌};
ghost use Rattle.layout.specs.Addresses.{HEAD, TAIL, TO-HEAD, CHAIN-TO-HEAD, chain_head, chain_tail};
ghost use Rattle.word_ops.specs.Lists.{word_of, slot_of, unlinked, pushed, moved_to_front};

// The words of an entry.
pub const ENTRY_WORDS: u32 = 9;

// A list's links of an entry: towards the head, and in the next word towards the tail.
pub const UP: u32 = 0;

pub const DOWN: u32 = 1;

// The links to head and tail of count chain i, from 1, stand 2 × i words past these.
const CHAIN_HEADS: usize = 22;

const CHAIN_TAILS: usize = 23;

// Where word k of entry e stands, where the entries' words go up from `at`.
fn word_at(at: u32, e: u32, k: u32) -> usize
    ensures { result ≡ word_of at e k }
{
    at as usize + ENTRY_WORDS as usize * e as usize + k as usize
}

// The same, or the anchor where e is 0: in the words a link of 0 is none.
#[tactic(auto, unfolding(word_ops::specs::Lists::slot_of))]
pub fn slot(anchor: usize, at: u32, e: u32, k: u32) -> usize
    ensures { result ≡ slot_of anchor at e k }
{
    if e == 0 { anchor } else { word_at(at, e, k) }
}

// Where the link to the head of count chain i stands. Head and tail have a function each, as they have a definition each.
pub fn chain_head(i: u32) -> usize
    ensures { result ≡ chain_head i }
{
    CHAIN_HEADS + 2 * i as usize
}

// Where the link to its tail stands.
pub fn chain_tail(i: u32) -> usize
    ensures { result ≡ chain_tail i }
{
    CHAIN_TAILS + 2 * i as usize
}

// What a search goes by: where the entries' words go up from, and more links than any list has.
#[derive(Clone, Copy)]
pub struct Entries {
    pub at: u32,
    pub links: u32,
}

impl Entries {
    // Where word k of entry e stands.
    pub fn word_of(self, e: u32, k: u32) -> usize
        ensures { result ≡ word_of self.«at» e k }
    {
        word_at(self.at, e, k)
    }
}

// Where the entries' words go up from, Cmax, the bucket count, and N + 1 (more links than any list has).
#[derive(Clone, Copy)]
pub struct Frame {
    pub at: u32,
    pub cmax: u32,
    pub buckets: u32,
    pub links: u32,
    pub ghost low: { at < 100000 },
    pub ghost few_chains: { cmax ≤ 64 },
}

impl Frame {
    // Where word k of entry e stands.
    pub fn word_of(self, e: u32, k: u32) -> usize
        ensures { result ≡ word_of self.«at» e k }
    {
        word_at(self.at, e, k)
    }

    // What a search goes by.
    pub fn entries(self) -> Entries
        ensures { result ≡ record { «at» = self.«at»; links = self.links } }
    {
        Entries {
            at: self.at,
            links: self.links,
        }
    }

    // The recency stack.
    pub fn stack(self) -> List
        ensures { result ≡ record { head = HEAD; tail = TAIL; «at» = self.«at» + TO-HEAD } }
    {
        List {
            head: layout::HEAD,
            tail: layout::TAIL,
            at: self.at + layout::TO_HEAD,
        }
    }

    // Count chain i.
    pub fn chain(self, i: u32) -> List
        ensures { result ≡ record { head = chain_head i; tail = chain_tail i; «at» = self.«at» + CHAIN-TO-HEAD } }
    {
        List {
            head: chain_head(i),
            tail: chain_tail(i),
            at: self.at + layout::CHAIN_TO_HEAD,
        }
    }
}

// A doubly linked list of entries: the words of its head and tail, and where the entries' links of it go up from.
#[derive(Clone, Copy)]
pub struct List {
    pub head: usize,
    pub tail: usize,
    pub at: u32,
}

impl List {
    // Takes entry e out: its neighbours, or head and tail of the list, are linked to each other.
    #[tactic(auto, unfolding(word_ops::specs::Lists::unlinked, word_ops::specs::Lists::joined))]
    pub fn unlink(self, dir: &mut [u32], e: u32)
        ensures { dir.new ≡ unlinked dir.old self.head self.tail self.«at» e }
    {
        let List { head, tail, at } = self;
        let up = words::get(dir, word_at(at, e, UP));
        let down = words::get(dir, word_at(at, e, DOWN));
        words::set_link(dir, slot(head, at, up, DOWN), down);
        words::set_link(dir, slot(tail, at, down, UP), up);
    }

    // Puts entry e at the head.
    #[tactic(auto, unfolding(word_ops::specs::Lists::pushed, word_ops::specs::Lists::put_before))]
    pub fn push_front(self, dir: &mut [u32], e: u32)
        ensures { dir.new ≡ pushed dir.old self.head self.tail self.«at» e }
    {
        let List { head, tail, at } = self;
        let old = words::get(dir, head);
        words::set_link(dir, word_at(at, e, UP), 0);
        words::set_link(dir, word_at(at, e, DOWN), old);
        words::set_link(dir, slot(tail, at, old, UP), e);
        words::set_link(dir, head, e);
    }

    // Moves entry e to the head.
    #[tactic(auto, unfolding(word_ops::specs::Lists::moved_to_front))]
    pub fn move_to_front(self, dir: &mut [u32], e: u32)
        ensures { dir.new ≡ moved_to_front dir.old self.head self.tail self.«at» e }
    {
        self.unlink(dir, e);
        self.push_front(dir, e);
    }
}
