//! A make whose bill is settled at once, as most tasks do it.

ghost use Rattle.std.specs.Prelude.{◌≡◌};
ghost use Rattle.keeper.specs.Holding.{Together};

use crate::keeper::Keeper;
use graph::collected::Collected;
use kinds::refusal::Refusal;
use pacing::pace::Pacing;

/// Makes a record and settles its bill; answers the record's number and the steps made. A refused make settles nothing.
pub fn make_and_settle<H: Collected, P: Pacing>(
    keeper: &mut Keeper<H, P>,
    slot: u32,
    kind: u32,
) -> Result<(u32, u64), Refusal>
    ensures { Together H.Heap H.Collected.idles P.Pacing keeper.old slot kind result keeper.new }
{
    let (number, bill) = keeper.make(slot, kind)?;
    let steps = keeper.settle(bill).unwrap();
    Ok((number, steps))
}
