// The reader's refusal: 10 first, then 1, 2 and 3.
ghost use Rattle.std.specs.Prelude.{◌≡◌, cond, ◌&&◌, pos, MatchResult};
ghost use Rattle.std.specs.Int.Signed.{le_z};
ghost use Rattle.rules.specs.Site.{within, first_of};
ghost use Rattle.rules.specs.Refusals.{refusal_number, outcome_number};
ghost use Rattle.rules.specs.Raster.{raster_number};
ghost use Rattle.decimals.specs.Values.{value_of};
ghost use Rattle.raster_laws.specs.Decisions.{Decided};

use crate::{product, values};
use decimals::Decimal;
use rules::{Refusal, Survey};

// Of a text that passes: columns, rows and side, and where the values begin.
#[derive(Clone, Copy, Debug, PartialEq, Eq)]
pub struct Decision {
    pub survey: Survey,
    pub at: usize,
}

// The definition's word, with std's method inside; one for each type.
fn within(low: u64, high: u64, n: u64) -> bool
    ensures { result ≡ within low high n }
{
    (low..=high).contains(&n)
}

// Whether columns, rows and side lie in their ranges.
fn sizes_fit(columns: u64, rows: u64, side: Decimal) -> bool
    ensures { result ≡ (within 1 128 columns && within 1 128 rows && (le_z (pos 100000) (value_of side) && le_z (value_of side) (pos 20000000))) }
{
    let wide = within(1, 128, columns);
    let high = within(1, 128, rows);
    wide & high & (!side.minus & within(100000, 20000000, side.size))
}

// The first test that fails.
fn check(raster: bool, sizes: bool, lengths: bool, values: bool) -> Result<(), Refusal>
    ensures { outcome_number result ≡ cond raster (first_of sizes lengths values) 10 }
{
    if !raster {
        return Err(Refusal::Raster);
    }
    if !sizes {
        return Err(Refusal::Card);
    }
    if !lengths {
        return Err(Refusal::Length);
    }
    if !values {
        return Err(Refusal::Value);
    }
    Ok(())
}

// What a text says for a lent list of n words.
#[tactic(auto, using(raster_laws::specs::Decisions::no_head, raster_laws::specs::Decisions::no_values))]
pub fn decide(text: &[u8], n: usize) -> Result<Decision, Refusal>
    ensures { MatchResult result (λ found. Decided text.now n found.survey.columns found.survey.rows found.survey.side found.at) (λ refusal. refusal_number refusal ≡ raster_number text.now n) }
{
    let Some(head) = raster_head::head_in(text) else {
        return Err(Refusal::Raster);
    };
    let Some(look) = values::look_over(text, head.end, head.no_data) else {
        return Err(Refusal::Raster);
    };
    let counts = product::is_product(look.count as u64, head.columns, head.rows);
    let sizes = sizes_fit(head.columns, head.rows, head.side);
    check(counts, sizes, n == look.count, look.fit)?;
    let survey = Survey {
        columns: head.columns as u32,
        rows: head.rows as u32,
        side: head.side.size as u32,
    };
    Ok(Decision {
        survey,
        at: head.end,
    })
}
