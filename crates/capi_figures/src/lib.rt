// The figures of the C interface: what a library answers becomes the number that a call returns, and the figures in the list lent for them.
#![tactic(auto)]

ghost use Rattle.std.specs.Prelude.{◌≡◌};
ghost use Rattle.spec.specs.Refusal.{◌or_else◌};

pub mod legal;
mod list;

// What a call answers where its list of figures is short: 5, unless a test before 5 has refused it by `first`.
pub fn or_five(first: u16) -> u16
    ensures { result ≡ first or_else 5 }
{
    if first == 0 { 5 } else { first }
}
