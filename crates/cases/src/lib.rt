// The worked cases: one table, computed from the definitions that the contracts of all layers use.
#![tactic(auto)]

pub mod caller;

ghost use Rattle.std.specs.Prelude.{◌≡◌, length};
ghost use Rattle.cases.specs.Worked.{worked, AllStand};

// How many worked cases there are. That they all stand is a theorem.
pub fn worked_cases() -> u16
    ensures count { result ≡ length worked }
    ensures stand { AllStand worked }
{
    32
}

#[cfg(test)]
mod book_tests;
#[cfg(test)]
mod check_tests;
#[cfg(test)]
mod tests;
