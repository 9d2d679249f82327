//! Playing a list of calls on a new keeper.

ghost use Rattle.std.specs.Prelude.{◌≡◌, ◌+◌, ◌≤◌, [], length, vec_len, vec_capacity};
ghost use Rattle.keeper.specs.Bills.{Playing, Outcome};

use super::player::Player;
use super::{Run, Unplayed};
use crate::keeper::{Bill, Keeper};
use crate::orders::{Order, Reply};
use graph::collected::Collected;
use pacing::pace::Pacing;
use std::alloc::Global;

/// Plays the orders, where there is room for the replies and the bills.
fn played<H: Collected, P: Pacing>(
    heap: H,
    pacing: P,
    orders: &[Order],
    strays: Vec<Bill>,
    room: Vec<Reply>,
) -> Run<H, P>
    requires empty { room.items ≡ [] }
    requires replies { length orders.now ≤ vec_capacity room }
    requires bills { vec_len strays + length orders.now ≤ vec_capacity strays }
    ensures { Playing H.Heap P.Pacing heap pacing strays orders.now result }
{
    let mut player = Player {
        keeper: Keeper::new(heap, pacing),
        bills: strays,
    };
    let mut replies = room;
    for order in orders {
        replies.push_reserved(player.obey(*order));
    }
    let Player { keeper, bills } = player;
    Run {
        keeper,
        replies,
        bills,
    }
}

/// Sets a keeper up on the heap and the pacing, plays the orders, and hands back the keeper, the replies one for one, and the
/// bills that are unspent. A settle names a bill by its place among those held: the strays, and then those of its makes.
/// Want of memory shows before anything is played: then heap, pacing and bills come back as they were.
pub fn play<H: Collected, P: Pacing>(
    alloc: Global,
    heap: H,
    pacing: P,
    orders: &[Order],
    strays: Vec<Bill>,
) -> Result<Run<H, P>, Unplayed<H, P>>
    ensures { Outcome H.Heap P.Pacing heap pacing strays orders.now result }
{
    let mut bills = strays;
    let count = orders.len();
    let reserved = bills
        .reserve(count)
        .and_then(|()| Vec::with_capacity(alloc, count));
    let Ok(replies) = reserved else {
        return Err(Unplayed {
            heap,
            pacing,
            bills,
        });
    };
    Ok(played(heap, pacing, orders, bills, replies))
}
