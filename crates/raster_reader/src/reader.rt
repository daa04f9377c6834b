// The reader: what the text says first, and then what is left with it.
ghost use Rattle.rules.specs.Answers.{raster_of};
ghost use Rattle.rules.specs.PublicContracts.{ReadRasterContract};

use crate::fills;
use rules::{Refusal, Survey};

// The ground of a raster.
pub fn read_raster(text: &[u8], land: &mut [i32]) -> Result<Survey, Refusal>
    ensures { ReadRasterContract text.now land.old (raster_of result) land.new }
{
    let found = raster_look::decide(text, land.len())?;
    fills::fill(
        text,
        found.at,
        found.survey.columns,
        found.survey.rows,
        land,
    );
    Ok(found.survey)
}
