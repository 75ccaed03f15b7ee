// Loads a saved table.
#![tactic(auto)]

ghost use Rattle.std.specs.Prelude.{◌≡◌, true, length};
ghost use Rattle.bits.specs.Bits.{equal};
ghost use Rattle.numbers.specs.View.{view, is_record};
ghost use Rattle.saved_table.specs.Table.{saved_table};
ghost use Rattle.ready.proofs.Ready.{Lent};
ghost use Rattle.plan.specs.Answer.{parts_of};
ghost use Rattle.plan.specs.Load.{load_table};
ghost use Rattle.plan.specs.Calls.{load as asked};
ghost use Rattle.plan.specs.Followed.{Followed, Performed, OnBoth};
ghost use Rattle.load.specs.Inner.{SizesIn};

use numbers::{HEIGHT, RECORD, WIDTH};
use place::SurfaceId;
use plan::Answer;
use refusals::Refusal;
use saved_table::MAX_TABLE;

// Loads a table into a device. Bytes that are not exactly one table are refused with 12, a table whose pixels the memories do not hold
// with 7. The loaded panel and the store behind the stock bitmap turn black. A refused load changes no number and no byte.
pub fn load(
    numbers: &mut [u32],
    bytes: &[u8],
    panel: &mut [u8],
    store: &mut [u8],
) -> Result<Answer, Refusal>
    ensures { OnBoth (Performed (asked bytes.now)) numbers panel store (parts_of result) }
{
    ready::check(numbers, panel.len(), store.len())?;
    load_ready(numbers, bytes, panel, store)
}

// The same on a ready device.
fn load_ready(
    numbers: &mut [u32],
    bytes: &[u8],
    panel: &mut [u8],
    store: &mut [u8],
) -> Result<Answer, Refusal>
    requires { Lent numbers.old (length panel.old) (length store.old) }
    ensures { OnBoth (λ n. Followed (load_table (view n) bytes.now) n) numbers panel store (parts_of result) }
{
    let Some(sizes) = sizes_in(bytes) else {
        return Err(Refusal::Table);
    };
    if sizes.panel > panel.len() || sizes.end > store.len() {
        return Err(Refusal::TooShort);
    }
    memory::zero(panel, 0, sizes.panel);
    memory::zero(store, 2, store.len() - 2);
    unpack::read_table(bytes, numbers);
    dirty::mark_dirty(numbers, SurfaceId::Panel, None);
    Ok(Answer::Drawn)
}

// What a load asks of a table: the bytes of the panel's pixels, and the end of the store's pixels.
#[derive(Clone, Copy)]
struct Sizes {
    panel: usize,
    end: usize,
}

// Returns the sizes of the table that the bytes are, if they are one.
fn sizes_in(bytes: &[u8]) -> Option<Sizes>
    ensures { SizesIn bytes.now result }
{
    if !unpack::is_complete(bytes) {
        return None;
    }
    let mut numbers = [0u32; RECORD];
    unpack::read_table(bytes, &mut numbers);
    let end = ready::sound_end(&numbers)?;
    if !is_table_of(&numbers, bytes) {
        return None;
    }
    let w = numbers[WIDTH] as usize;
    let h = numbers[HEIGHT] as usize;
    Some(Sizes {
        panel: 2 * (w * h),
        end,
    })
}

// Returns whether the bytes are the table of a record.
#[tactic(auto, using(bits::proofs::Lists::other_length))]
fn is_table_of(numbers: &[u32], bytes: &[u8]) -> bool
    requires { is_record numbers.now ≡ true }
    ensures { result ≡ equal (saved_table (view numbers.now)) bytes.now }
{
    let n = pack::table_len(numbers);
    if n != bytes.len() {
        return false;
    }
    let mut table = [0u8; MAX_TABLE];
    pack::put_table(numbers, &mut table);
    bits::is_equal(&table[..n], bytes)
}
