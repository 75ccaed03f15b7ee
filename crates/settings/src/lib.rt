// The setting calls: each changes one field of a DC in a flat record and returns the old value.
#![tactic(auto)]

ghost use Rattle.std.specs.Prelude.{◌≡◌, true, None, IfOk, IfErr};
ghost use Rattle.dc_mut.specs.declared.Change.{Change};
ghost use Rattle.gdi.specs.Lookup.{dc_of};
ghost use Rattle.numbers.specs.View.{view, is_record};
ghost use Rattle.settings.specs.Inner.{SetIn};
ghost use Rattle.refusals.specs.declared.Refusal.TheVariants.{NoDc};
ghost use Rattle.plan.specs.Settings.{set_text_color, set_text_align, set_bk_color, set_bk_mode};
ghost use Rattle.ready.proofs.Ready.{Lent};
ghost use Rattle.plan.specs.Answer.{parts_of};
ghost use Rattle.plan.specs.Followed.{Followed, OnNumbers};

use color::Colorref;
use dc_mut::Change;
use gdi::Dc;
use plan::Answer;
use refusals::Refusal;

// Changes a setting of the DC with this handle; returns the old one.
fn set<T, F: FnOnce(Dc) -> Change<T>>(numbers: &mut [u32], dc: u32, change: F) -> Result<T, Refusal>
    requires numbers_value { is_record numbers.old ≡ true }
    requires callable { F.IsAlwaysCallable change }
    ensures set { IfOk result (λ old. SetIn (λ d after. F.post change d (record { dc = after; old = old })) numbers.old dc numbers.new) }
    ensures kept { IfErr result (λ r. (r ≡ NoDc) × (dc_of (view numbers.old) dc ≡ None) × (numbers.new ≡ numbers.old)) }
{
    let (p, d) = lookup::find_dc(numbers, dc).ok_or(Refusal::NoDc)?;
    let changed = change(d);
    lookup::update_dc(numbers, dc, p, changed.dc);
    Ok(changed.old)
}

pub fn set_text_color(numbers: &mut [u32], dc: u32, color: Colorref) -> Result<Answer, Refusal>
    requires { Lent numbers.old (view numbers.old).panel_len (view numbers.old).store_len }
    ensures { OnNumbers (λ n. Followed (set_text_color (view n) dc color) n) numbers (parts_of result) }
{
    set(numbers, dc, |d| dc_mut::with_text_color(d, color)).map(Answer::OldColor)
}

pub fn set_text_align(numbers: &mut [u32], dc: u32, align: u32) -> Result<Answer, Refusal>
    requires { Lent numbers.old (view numbers.old).panel_len (view numbers.old).store_len }
    ensures { OnNumbers (λ n. Followed (set_text_align (view n) dc align) n) numbers (parts_of result) }
{
    set(numbers, dc, |d| dc_mut::with_text_align(d, align)).map(Answer::OldAlign)
}

pub fn set_bk_color(numbers: &mut [u32], dc: u32, color: Colorref) -> Result<Answer, Refusal>
    requires { Lent numbers.old (view numbers.old).panel_len (view numbers.old).store_len }
    ensures { OnNumbers (λ n. Followed (set_bk_color (view n) dc color) n) numbers (parts_of result) }
{
    set(numbers, dc, |d| dc_mut::with_bk_color(d, color)).map(Answer::OldColor)
}

pub fn set_bk_mode(numbers: &mut [u32], dc: u32, transparent: bool) -> Result<Answer, Refusal>
    requires { Lent numbers.old (view numbers.old).panel_len (view numbers.old).store_len }
    ensures { OnNumbers (λ n. Followed (set_bk_mode (view n) dc transparent) n) numbers (parts_of result) }
{
    set(numbers, dc, |d| dc_mut::with_bk_mode(d, transparent)).map(Answer::OldMode)
}
