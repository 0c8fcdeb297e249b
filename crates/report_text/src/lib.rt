// Words and numbers, one after another, in a text of at most 512 bytes that lies in the value itself.
#![tactic(auto)]

ghost use Rattle.std.specs.Prelude.{◌∷◌, [], ◌+◌, ◌≤◌, length};
ghost use Rattle.report_text.specs.Text.{spaced, members};
ghost use Rattle.report_text.specs.ReportTextInner.{Added};

use arrayvec::ArrayVec;
use itoa::Buffer;

// `write!` may fail by its contract, and what is printed here never does: so each part is appended.
pub type Text = ArrayVec<u8, 512>;

// Bytes of any values.
pub fn word(text: &mut Text, w: &[u8])
    requires { length text.old.items + length w.now ≤ 512 }
    ensures { Added w.now (length w.now) text.old.items text.new.items }
{
    text.try_extend_from_slice(w).unwrap();
}

// One letter.
pub fn push(text: &mut Text, x: u8)
    requires { length text.old.items + 1 ≤ 512 }
    ensures { Added (x ∷ []) 1 text.old.items text.new.items }
{
    text.push(x);
}

// A number after a space.
#[tactic(auto, using(crate::proofs::AddedLaws::added_number))]
pub fn number(text: &mut Text, x: u32)
    requires { length text.old.items + 11 ≤ 512 }
    ensures { Added (spaced (x ∷ [])) 11 text.old.items text.new.items }
{
    let mut digits = Buffer::new();
    push(text, b' ');
    word(text, digits.format(x).as_bytes());
}

pub fn two_numbers(text: &mut Text, a: u8, b: u8)
    requires { length text.old.items + 22 ≤ 512 }
    ensures { Added (spaced (a ∷ b ∷ [])) 22 text.old.items text.new.items }
{
    number(text, u32::from(a));
    number(text, u32::from(b));
}

// The members of a set upward, each after a space.
pub fn members(text: &mut Text, m: u32)
    requires { length text.old.items + 352 ≤ 512 }
    ensures { Added (spaced (members m)) 352 text.old.items text.new.items }
{
    // i is a number that may be a member: what is written is lent, so no closure takes it in turn.
    for i in 0..32 {
        if mask::has(m, i) {
            number(text, i as u32);
        }
    }
}
