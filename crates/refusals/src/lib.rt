// Refusals: every reason for which an entry point may say no has the document's number. Each crate has its own reasons, as an enum or a struct; this trait
// is what they share. The contracts cite Refusals of specs/.
#![tactic(auto)]

ghost use Rattle.std.specs.Prelude.{◌≡◌, ℕ};
ghost use Rattle.refusals.specs.Refusals.{number_of};

// A reason for a refusal, by the document's number.
pub trait Numbered {
    ghost number: { Self → ℕ };

    fn number(self) -> u32
        ensures { result ≡ number self };
}

// The number of an answer: 0 where there is one, else that of the refusal.
pub fn number_of<T: Copy, E: Numbered>(answer: Result<T, E>) -> u32
    ensures { result ≡ number_of E.number answer }
{
    match answer {
        Ok(_) => 0,
        Err(e) => e.number(),
    }
}
