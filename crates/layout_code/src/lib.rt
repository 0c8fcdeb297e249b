// How an answer crosses the border.
#![tactic(auto)]

ghost use Rattle.std.specs.Prelude.{◌≡◌};
ghost use Rattle.refusal.specs.RefusalNumbers.{answer_of};
ghost use Rattle.layout_code.specs.Code.{code_of};

use refusal::Refusal;

// What every call returns: 0 when done, else the number and its place: the C interface has numbers.
pub fn code(number: u8, place: u8) -> u32
    ensures { result ≡ code_of number place }
{
    if number == 0 {
        return 0;
    }
    u32::from(number) + 256 * u32::from(place)
}

// The same of what a call in the language gives.
pub fn answer<T>(r: &Result<T, Refusal>) -> u32
    ensures { result ≡ code_of (answer_of r.now).number (answer_of r.now).place }
{
    match r {
        Ok(_) => 0,
        Err(e) => code(e.number(), e.place()),
    }
}
