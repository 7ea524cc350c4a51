// The capacity that the two numbers of a link line give, or the number of the refusal (document 02, Card 5, a size and a reserve; Card 11, a low and a high size).
#![tactic(auto)]

ghost use Rattle.std.specs.Prelude.{cond, ◌≡◌, leb, Ok, Err};
ghost use Rattle.model.specs.declared.Sizing.TheVariants.{Reserved};
ghost use Rattle.sheet_sizes.specs.Sizes.{paired, capacity_of};

use model::Sizing;

// The capacity that a size and a reserve give.
fn less_reserve(size: u64, reserve: u64) -> Result<u64, u64>
    ensures { result ≡ paired Reserved size reserve }
{
    if reserve > size {
        return Err(13);
    }
    Ok(size - reserve)
}

// The capacity that a low and a high size give, one of which is taken.
fn of_range(low: u64, high: u64, taken: u64) -> Result<u64, u64>
    ensures { result ≡ cond (leb low high) (Ok taken) (Err 19) }
{
    if low > high {
        return Err(19);
    }
    Ok(taken)
}

// The capacity that two numbers within the limit give.
pub fn paired(sizing: Sizing, first: u64, second: u64) -> Result<u64, u64>
    ensures { result ≡ paired sizing first second }
{
    match sizing {
        Sizing::Reserved => less_reserve(first, second),
        Sizing::Low => of_range(first, second, first),
        Sizing::High => of_range(first, second, second),
    }
}

// The capacity that two numbers give.
#[tactic(auto, unfolding(crate::specs::Sizes::capacity_of))]
pub fn capacity_of(sizing: Sizing, first: Option<u64>, second: Option<u64>) -> Result<u64, u64>
    ensures { result ≡ capacity_of sizing first second }
{
    paired(sizing, first.ok_or(3_u64)?, second.ok_or(3_u64)?)
}
