// Two messages: who survives, or why they are refused. The device has no part in this.
ghost use Rattle.std.specs.Prelude.{◌≡◌, cond, Ok, Err};
ghost use Rattle.memory.specs.Refusals.{refused};
ghost use Rattle.arbitration.specs.Arbitration.{length_passes, first_passes, outcome_of};
ghost use Rattle.arbitration.specs.Inner.{compared_of};

use super::Winner;
use memory::{Refusal, Refused};
use std::cmp::Ordering;

// A message has 1 to 16 bytes.
fn length_passes(message: &[u8]) -> bool
    ensures { result ≡ length_passes message.now }
{
    (1..=16).contains(&message.len())
}

// Its first byte is even.
fn first_passes(message: &[u8]) -> bool
    ensures { result ≡ first_passes message.now }
{
    message.first().is_none_or(|byte| byte % 2 == 0)
}

fn check(passes: bool, why: Refusal) -> Result<(), Refused>
    ensures { result ≡ cond passes (Ok tt) (Err (refused why 0)) }
{
    if passes { Ok(()) } else { Err(why.into()) }
}

// The smaller first differing byte survives: by the bits of specs/Line.antt, since a byte's bits go top bit first.
fn contest(first: &[u8], second: &[u8]) -> Result<Winner, Refused>
    ensures { result ≡ compared_of first.now second.now }
{
    match first.cmp(&second) {
        Ordering::Equal => Ok(Winner::Both),
        _ if first.starts_with(second) || second.starts_with(first) => {
            Err(Refusal::MessagePrefix.into())
        }
        Ordering::Less => Ok(Winner::First),
        Ordering::Greater => Ok(Winner::Second),
    }
}

// Who survives; or 20, 21, 22, each tested over both messages before the next.
#[tactic(auto, using(crate::proofs::ByBytes::slices_compared), unfolding(crate::specs::Arbitration::outcome_of))]
pub fn outcome(first: &[u8], second: &[u8]) -> Result<Winner, Refused>
    ensures { result ≡ outcome_of first.now second.now }
{
    check(
        length_passes(first) && length_passes(second),
        Refusal::MessageLength,
    )?;
    check(
        first_passes(first) && first_passes(second),
        Refusal::FirstByteOdd,
    )?;
    contest(first, second)
}
