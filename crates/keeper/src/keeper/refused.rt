//! A refused settle: its number and its bill.

ghost use Rattle.std.specs.Prelude.{◌≡◌};
ghost use Rattle.keeper.specs.Holding.{refusal_number, bill_of};

use super::{Bill, NotSettled};
use kinds::refusal::Refusal;

impl NotSettled {
    /// The number that the settle returns: 9.
    pub fn number(&self) -> u32
        ensures { result ≡ refusal_number self.now }
    {
        match self {
            NotSettled::WrongBill(_) => Refusal::WrongBill.number(),
        }
    }

    /// The bill that is handed back.
    pub fn bill(self) -> Bill
        ensures { result ≡ bill_of self }
    {
        let NotSettled::WrongBill(bill) = self;
        bill
    }
}
