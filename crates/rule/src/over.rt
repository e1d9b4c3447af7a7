// The earliest tick at which one drive can be through with a whole sheet.
ghost use Rattle.std.specs.Prelude.{◌≡◌};
ghost use Rattle.sheet.specs.Meaning.{meaning};
ghost use Rattle.rule.specs.Over.{over, OverLaw};

use crate::timed::Timed;
use sheet::Sheet;

// The earliest tick at which one drive can be through with every move; 0 for a sheet with no move.
pub fn earliest_over(sheet: &Sheet) -> u32
    ensures tick { result ≡ over (meaning sheet.now) }
    ensures law { OverLaw (meaning sheet.now) }
{
    Timed::new(sheet).through()
}
