// Delete and remove, on a flat record.
#![tactic(auto)]

ghost use Rattle.std.specs.Prelude.{true, length, Ok};
ghost use Rattle.numbers.specs.View.{view};
ghost use Rattle.plan.specs.Delete.{delete, remove};
ghost use Rattle.ready.proofs.Ready.{Lent};
ghost use Rattle.plan.specs.Answer.{parts_of};
ghost use Rattle.plan.specs.Followed.{Followed, OnStore};

use numbers::{KIND, OBJECT, SLOT, SLOTS};
use plan::Answer;

// Deletes a created object. A stock object is kept and reported as deleted.
#[tactic(auto, using(numbers::proofs::Seen::found_in))]
pub fn delete(numbers: &mut [u32], store: &mut [u8], handle: u32) -> Answer
    requires { Lent numbers.old (view numbers.old).panel_len (length store.old) }
    ensures { OnStore (λ n. Followed (delete (view n) handle) n) numbers store (parts_of (Ok result)) }
{
    if gdi::is_stock_handle(handle) {
        return Answer::Deleted(true);
    }
    let Some(i) = lookup::find(numbers, handle) else {
        return Answer::Deleted(false);
    };
    removal::take_out(numbers, store, i);
    Answer::Deleted(true)
}

// Deletes a created object and returns its record.
#[tactic(auto, using(lookup::proofs::Found::found_room, numbers::proofs::Seen::found_in))]
pub fn remove(numbers: &mut [u32], store: &mut [u8], handle: u32) -> Answer
    requires { Lent numbers.old (view numbers.old).panel_len (length store.old) }
    ensures { OnStore (λ n. Followed (remove (view n) handle) n) numbers store (parts_of (Ok result)) }
{
    if gdi::is_stock_handle(handle) {
        return Answer::NotRemoved;
    }
    let Some(i) = lookup::find(numbers, handle) else {
        return Answer::NotRemoved;
    };
    let p = SLOTS + SLOT * i;
    let o = numbers::object_of(numbers[p + KIND], &numbers[p + OBJECT..p + SLOT]);
    removal::take_out(numbers, store, i);
    Answer::Removed(o)
}
