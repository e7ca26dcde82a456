// A look at a block: where its present bytes are. Nothing is written.
#![tactic(auto)]

ghost use Rattle.std.specs.Prelude.{◌≡◌};
ghost use Rattle.promises.specs.Looks.{look_bytes, look_place};

// The part of data or of store that holds a block's present bytes; empty where the look is refused.
pub fn look<'a>(dir: &[u32], bytes: &'a [u8], store: &'a [u8], block: u32) -> &'a [u8]
    ensures { (result.now ≡ look_bytes dir.now bytes.now store.now block)
        × (result.ref_ptr ≡ look_place dir.now bytes.now store.now block bytes.entry.ref_ptr store.entry.ref_ptr) }
{
    let Ok(()) = numbers::look_number(dir, bytes, store, block) else {
        return &bytes[0..0];
    };
    let s = header::settings_in(dir);
    let Some(e) = directory::lookup(dir, block, s) else {
        return blocks::part(store, block, s.b);
    };
    // Entry e owns block e − 1 of data.
    blocks::part(bytes, e - 1, s.b)
}
