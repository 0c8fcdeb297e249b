// The numbers 5 to 9 of a rule where its bytes lie, in a table or in a book.
#![tactic(auto)]

ghost use Rattle.std.specs.Prelude.{◌≡◌, ◌+◌, ◌*◌, ◌≤◌, ◌<◌, ltb, cond, length};
ghost use Rattle.mask.specs.Search.{some};
ghost use Rattle.rule.specs.Numbers.{letter_bad, counts_bad};
ghost use Rattle.mask.specs.Mask.{beyond};
ghost use Rattle.little.specs.Little.{byte_at, u32_at};
ghost use Rattle.refusal.specs.RefusalNumbers.{fault_of};
ghost use Rattle.rule_read.specs.Parts.{rule_of};
ghost use Rattle.rule_check.specs.RuleCheckInner.{Lies, Fitted, letter_left, taken_at, taken_in};
ghost use Rattle.rule_check.specs.RuleCheckInner.{cells_in, forms_in, twice_in, letters_in, number_with};

use little::Little;
use refusal::Fault;
use rule::{Assign, Test};
use rule_fields::Checked;
use rule_read::{Counts, Part};

// Whether a rule's name is that of an earlier one.
#[tactic(auto, unfolding(crate::specs::RuleCheckInner::taken_in))]
pub fn taken(names: &[[u8; 16]], name: &[u8; 16]) -> bool
    ensures { result ≡ taken_in names.now name.now }
{
    names.contains(name)
}

// 5 of the rule whose head is at `at`.
#[tactic(auto, unfolding(rule::specs::Numbers::counts_bad))]
pub fn counts_bad(s: &[u8], at: usize) -> bool
    requires { at + 12 ≤ length s.now }
    ensures { result ≡ counts_bad (rule_of s.now at 0 0 0) }
{
    let t = s[at + 8];
    let a = s[at + 9];
    let m = s[at + 10];
    let z = s[at + 11];
    (8 < t) | (8 < a) | (m < 1) | (16 < m) | (z != 0)
}

// Whether one of the n parts from p on uses a cell that is k or more.
fn any_cell_bad<P: Checked>(s: &[u8], p: usize, n: usize, k: u8) -> bool
    requires { (n ≤ 8) × (p + P.Part.SIZE * n ≤ length s.now) }
    ensures { result ≡ some n (λ j. P.cell_bad k (P.Part.held s.now (p + P.Part.SIZE * j))) }
{
    let size = P::SIZE;
    (0..n).any(|j| P::read(s, p + size * j).cell_bad(k))
}

// Whether one of the slots from p on is bad, where n parts are counted and the others are empty.
fn any_form_bad<P: Checked>(s: &[u8], p: usize, n: usize, room: usize) -> bool
    requires { (room ≤ 8) × (p + P.Part.SIZE * room ≤ length s.now) }
    ensures { result ≡ some room
        (λ j. cond (ltb j n)
        (P.form_bad (P.Part.held s.now (p + P.Part.SIZE * j)))
        (P.slot_bad (P.Part.held s.now (p + P.Part.SIZE * j)))) }
{
    let size = P::SIZE;
    (0..room).any(|j| {
        let x = P::read(s, p + size * j);
        if j < n { x.form_bad() } else { x.slot_bad() }
    })
}

// Whether a letter past the name is not 0.
fn any_letter_left(s: &[u8], p: usize, m: usize, room: usize) -> bool
    requires { (room ≤ 16) × (p + room ≤ length s.now) }
    ensures { result ≡ some room (letter_left s.now p m) }
{
    (m..room).any(|j| s[p + j] != 0)
}

fn any_letter_bad(s: &[u8], p: usize, m: usize) -> bool
    requires { (m ≤ 16) × (p + m ≤ length s.now) }
    ensures { result ≡ some m (λ j. letter_bad (byte_at s.now (p + j))) }
{
    s[p..p + m].iter().any(|b| rule_fields::letter_bad(*b))
}

// Whether assignment j has the target of an earlier one.
fn target_taken(s: &[u8], p: usize, j: usize) -> bool
    requires { (j < 8) × (p + 20 * j < length s.now) }
    ensures { result ≡ taken_at s.now p j }
{
    (0..j).any(|i| s[p + 20 * i] == s[p + 20 * j])
}

fn any_target_taken(s: &[u8], p: usize, a: usize) -> bool
    requires { (a ≤ 8) × (p + 20 * a ≤ length s.now) }
    ensures { result ≡ some a (taken_at s.now p) }
{
    (0..a).any(|j| target_taken(s, p, j))
}

// Whether the mask at `at` has a member that is n or more.
fn mask_beyond(s: &[u8], at: usize, n: u8) -> bool
    requires { (at + 4 ≤ length s.now) × (n ≤ 32) }
    ensures { result ≡ beyond (u32_at s.now at) n }
{
    mask::beyond(u32::at(s, at), usize::from(n))
}

// A rule where it lies: its head is at `at`, with room for so many tests, assignments and letters after it.
#[derive(Clone, Copy)]
struct Laid<'a> {
    s: &'a [u8],
    at: usize,
    room: Counts,
    ghost fitted: { Fitted s.now at room.tests room.assigns room.letters },
}

impl Laid<'_> {
    // Where its tests, its assignments and its name stand.
    fn tests(&self) -> usize
        ensures { result ≡ self.now.at + 12 }
    {
        self.at + 12
    }

    fn assigns(&self) -> usize
        ensures { result ≡ self.now.at + 12 + 12 * self.now.room.tests }
    {
        self.at + 12 + 12 * self.room.tests
    }

    fn name(&self) -> usize
        ensures { result ≡ self.now.at + 12 + 12 * self.now.room.tests + 20 * self.now.room.assigns }
    {
        self.at + 12 + 12 * self.room.tests + 20 * self.room.assigns
    }

    // 6.
    fn cells_bad(&self, n: u8, k: u8) -> bool
        requires { (n ≤ 32) × (k ≤ 32) }
        ensures { result ≡ cells_in self.now.s.now self.now.at self.now.room.tests n k }
    {
        let counts = rule_read::counts_at(self.s, self.at);
        mask_beyond(self.s, self.at, k)
            | mask_beyond(self.s, self.at + 4, n)
            | any_cell_bad::<Test>(self.s, self.tests(), counts.tests, k)
            | any_cell_bad::<Assign>(self.s, self.assigns(), counts.assigns, k)
    }

    // 7.
    fn forms_bad(&self) -> bool
        ensures { result ≡ forms_in self.now.s.now self.now.at self.now.room.tests self.now.room.assigns self.now.room.letters }
    {
        let counts = rule_read::counts_at(self.s, self.at);
        any_form_bad::<Test>(self.s, self.tests(), counts.tests, self.room.tests)
            | any_form_bad::<Assign>(self.s, self.assigns(), counts.assigns, self.room.assigns)
            | any_letter_left(self.s, self.name(), counts.letters, self.room.letters)
    }

    // 8.
    fn twice(&self) -> bool
        ensures { result ≡ twice_in self.now.s.now self.now.at self.now.room.tests }
    {
        any_target_taken(
            self.s,
            self.assigns(),
            rule_read::count_at(self.s, self.at + 9),
        )
    }

    // 9, first half.
    fn letters_bad(&self) -> bool
        ensures { result ≡ letters_in self.now.s.now self.now.at self.now.room.tests self.now.room.assigns }
    {
        any_letter_bad(
            self.s,
            self.name(),
            rule_read::count_at(self.s, self.at + 10),
        )
    }
}

// What is wrong first with the rule that lies there, where it is known whether an earlier rule has its name.
#[tactic(auto, using(crate::proofs::FieldsInLaws::numbered))]
pub fn number_in(s: &[u8], at: usize, room: Counts, n: u8, k: u8, taken: bool) -> Result<(), Fault>
    requires { Lies s.now at room.tests room.assigns room.letters × (n ≤ 32) × (k ≤ 32) }
    ensures { fault_of result ≡ number_with n k taken (rule_of s.now at room.tests room.assigns room.letters) }
{
    if counts_bad(s, at) {
        return Err(Fault::Counts);
    }
    let rule = Laid { s, at, room };
    if rule.cells_bad(n, k) {
        return Err(Fault::Cells);
    }
    if rule.forms_bad() {
        return Err(Fault::Forms);
    }
    if rule.twice() {
        return Err(Fault::Twice);
    }
    if rule.letters_bad() | taken {
        return Err(Fault::Name);
    }
    Ok(())
}
