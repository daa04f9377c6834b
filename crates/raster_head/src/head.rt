// The six keys in their order.
ghost use Rattle.std.specs.Prelude.{◌≡◌, false, MatchOption, option_map};
ghost use Rattle.rules.specs.Raster.{words_of, head_fits};
ghost use Rattle.raster_laws.specs.Heads.{Headed};
ghost use Rattle.decimals.specs.Values.{value_of};

use crate::fields;
use decimals::Decimal;

// What stands in front of a raster's values: columns, rows and side, the no-data value where one is given, and where the values begin.
#[derive(Clone, Copy, Debug)]
pub struct Head {
    pub columns: u64,
    pub rows: u64,
    pub side: Decimal,
    pub no_data: Option<Decimal>,
    pub end: usize,
}

// The corner is checked and dropped.
pub fn head_in(text: &[u8]) -> Option<Head>
    ensures { MatchOption result (head_fits (words_of text.now) ≡ false) (λ head. Headed text.now head.columns head.rows (value_of head.side) (option_map value_of head.no_data) head.end) }
{
    let (columns, at) = fields::count_at(text, 0, b"ncols")?;
    let (rows, at) = fields::count_at(text, at, b"nrows")?;
    let (_, at) = fields::measure_at(text, at, b"xllcorner")?;
    let (_, at) = fields::measure_at(text, at, b"yllcorner")?;
    let (side, at) = fields::measure_at(text, at, b"cellsize")?;
    let (no_data, end) = fields::no_data_at(text, at)?;
    Some(Head {
        columns,
        rows,
        side,
        no_data,
        end,
    })
}
