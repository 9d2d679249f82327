//! A keeper that is given orders, and the bills that are held.

ghost use Rattle.std.specs.Prelude.{◌≡◌, ◌<◌, vec_len, vec_capacity};
ghost use Rattle.keeper.specs.declared.orders.Order.TheVariants.{Make, Settle};
ghost use Rattle.keeper.specs.Bills.{Obeyed, reply_of};

use crate::keeper::{Bill, Keeper};
use crate::orders::{Order, Reply};
use graph::collected::Collected;
use kinds::refusal::Refusal;
use pacing::pace::Pacing;

/// A keeper that orders are given to, and the bills that are held, which a settle names by their places.
pub(super) struct Player<H, P> {
    pub keeper: Keeper<H, P>,
    pub bills: Vec<Bill>,
}

// Kept: room for one more bill is asked and no invariant, since a make takes it and the loop over the orders counts it.
impl<H: Collected, P: Pacing> Player<H, P> {
    /// A make, whose bill joins those held.
    fn make(&mut self, slot: u32, kind: u32) -> Result<Reply, Refusal>
        requires { vec_len self.old.bills < vec_capacity self.old.bills }
        ensures { Obeyed H.Heap P.Pacing self.old (Make slot kind) (reply_of result) self.new }
    {
        let (number, bill) = self.keeper.make(slot, kind)?;
        self.bills.push_reserved(bill);
        Ok(Reply::Word(number))
    }

    /// A settle with the bill at a place among those held; it is no call where there is none.
    #[tactic(auto, using(crate::proofs::BillLists::held_bills))]
    fn settle(&mut self, place: usize) -> Reply
        ensures { Obeyed H.Heap P.Pacing self.old (Settle place) result self.new }
    {
        if place >= self.bills.len() {
            return Reply::NoCall;
        }
        let bill = self.bills.remove(place);
        match self.keeper.settle(bill) {
            Ok(steps) => Reply::Settled(steps),
            Err(why) => {
                self.bills.push_reserved(why.bill());
                Reply::NotSettled
            }
        }
    }

    /// Any order, with the refusal as an error.
    fn call(&mut self, order: Order) -> Result<Reply, Refusal>
        requires { vec_len self.old.bills < vec_capacity self.old.bills }
        ensures { Obeyed H.Heap P.Pacing self.old order (reply_of result) self.new }
    {
        // Kept: a match over which call to make, since a list of calls as values is what `play` takes.
        match order {
            Order::Make(slot, kind) => self.make(slot, kind),
            Order::Read(slot, field) => self.keeper.read(slot, field).map(Reply::Word),
            Order::Write(slot, field, word) => {
                self.keeper.write(slot, field, word).map(|()| Reply::Done)
            }
            Order::Follow(slot, field, to) => {
                self.keeper.follow(slot, field, to).map(|()| Reply::Done)
            }
            Order::Link(slot, field, from) => {
                self.keeper.link(slot, field, from).map(|()| Reply::Done)
            }
            Order::Hold(slot, to) => self.keeper.hold(slot, to).map(|()| Reply::Done),
            Order::Drop(slot) => self.keeper.drop(slot).map(|()| Reply::Done),
            Order::Look(slot) => {
                let known = self.keeper.look(slot);
                known.map(|(number, kind)| Reply::Known(number, kind))
            }
            Order::Spare => Ok(Reply::Word(self.keeper.spare())),
            Order::Idle(count) => {
                let (made, ended) = self.keeper.idle(count);
                Ok(Reply::Idled(made, ended))
            }
            Order::Settle(place) => Ok(self.settle(place)),
        }
    }

    /// Any order.
    pub fn obey(&mut self, order: Order) -> Reply
        requires { vec_len self.old.bills < vec_capacity self.old.bills }
        ensures { Obeyed H.Heap P.Pacing self.old order result self.new }
    {
        self.call(order).unwrap_or_else(Reply::Refused)
    }
}
