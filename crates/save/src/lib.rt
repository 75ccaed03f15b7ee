// Saving the table of a record.
#![tactic(auto)]

ghost use Rattle.std.specs.Prelude.{◌≡◌};
ghost use Rattle.save.specs.Save.{saving, Saved};

use refusals::Refusal;

// The refusal's number, 0 if the table was saved, and the table's length in bytes, 0 if refused.
#[repr(C)]
#[derive(Clone, Copy, Debug, PartialEq, Eq)]
pub struct Saving {
    pub refusal: u32,
    pub length: u32,
}

impl From<Result<u32, Refusal>> for Saving {
    ghost from_gives = { λ r s. s ≡ saving r };

    fn from(outcome: Result<u32, Refusal>) -> Saving {
        match outcome {
            Ok(length) => Saving { refusal: 0, length },
            Err(refusal) => Saving {
                refusal: refusal.number(),
                length: 0,
            },
        }
    }
}

// Writes the table of a record into the front of the output, and returns its length in bytes. The output past the table is kept; if
// refused, all of it.
pub fn save(numbers: &[u32], out: &mut [u8]) -> Result<u32, Refusal>
    ensures { Saved numbers.now out.old (saving result) out.new }
{
    if !ready::is_sound(numbers) {
        return Err(Refusal::UnsoundRecord);
    }
    let n = pack::table_len(numbers);
    if out.len() < n {
        return Err(Refusal::OutputTooShort);
    }
    pack::put_table(numbers, out);
    Ok(n as u32)
}
