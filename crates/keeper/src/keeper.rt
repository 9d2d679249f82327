//! A keeper and its bills.

pub mod calls;
pub mod refused;

/// The bill of a made record: made only by a keeper's make, spent only by its settle. It cannot be copied or let go.
#[derive(Debug)]
pub struct Bill {
    number: u32,
}

/// Why a settle was refused.
// Kept: an enum of one case, since it is public, a program may match it, and it hands the bill back.
#[derive(Debug)]
pub enum NotSettled {
    /// 9: the bill's number is not the open one, or none is open. The bill is handed back.
    WrongBill(Bill),
}

/// Holds a collected heap and a pacing; counts the steps and the words made since the last cycle end.
#[derive(Drop)]
pub struct Keeper<H, P> {
    heap: H,
    pacing: P,
    // Kept: two single counts and no struct, since the pacing's question and the definitions name them one by one.
    steps: u32,
    words: u32,
    bill: Option<u32>,
}
