// The period table, and behind it the order of two. The contracts cite Orders and Answers of specs/.
#![tactic(auto)]

ghost use Rattle.periods.specs.Answers.{Periods, refusal_number, number_of, period_of};

pub mod order;
mod table;

// The largest q of the table.
const LAST: u32 = 1023;

// Refusal 4: the denominator is outside the table.
#[derive(Clone, Copy, PartialEq, Eq)]
pub struct Outside;

impl refusals::Numbered for Outside {
    ghost number = { refusal_number };

    fn number(self) -> u32 {
        4
    }
}

// The table's entry for q: the least T >= 1 with 2^T - 1 divisible by q.
pub fn period(q: u32) -> Result<u32, Outside>
    ensures { Periods q (number_of result) (period_of result) }
{
    if q % 2 == 0 || LAST < q {
        return Err(Outside);
    }
    let i = (q / 2) as usize;
    Ok(u32::from(table::PERIODS[i]))
}
