//! Playing a list of calls on a new keeper.

use crate::keeper::{Bill, Keeper};
use crate::orders::Reply;

mod player;
pub mod playing;

/// A list was played: the keeper, the replies one for one, and the bills that are unspent.
pub struct Run<H, P> {
    pub keeper: Keeper<H, P>,
    pub replies: Vec<Reply>,
    pub bills: Vec<Bill>,
}

/// There was no memory for the replies and the bills: nothing was played, and all is handed back.
pub struct Unplayed<H, P> {
    pub heap: H,
    pub pacing: P,
    pub bills: Vec<Bill>,
}
