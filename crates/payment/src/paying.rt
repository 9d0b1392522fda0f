// The payment so far, and the walk over the children of a payment means.
use report::{Place, Transfer};

// BG-18: BT-87, BT-88.
#[derive(Clone, Copy)]
pub struct PaymentCard {
    pub number: Option<Place>,
    pub holder: Option<Place>,
}

// The kind of means that is held: none yet, a card, a debited account (BT-91), or transfers, whose
// accounts are rows. One match tells the four apart, where an Option of three would nest.
#[derive(Clone, Copy)]
pub enum Means {
    Unset,
    Card(PaymentCard),
    Debit(Option<Place>),
    Transfers,
}

// Whether a payment means was met, BT-81, BT-82, and the kind of means.
#[derive(Clone, Copy)]
pub struct Payment {
    pub met: bool,
    pub code: Option<Place>,
    pub text: Option<Place>,
    pub means: Means,
}

// The payment so far, and the last account met, if it was held: its row waits for a provider.
#[derive(Clone, Copy)]
pub(crate) struct Walk {
    pub payment: Payment,
    pub waiting: Option<Transfer>,
}
