// What a summation holds, and what its children are read by.
use amount::InvoiceAmount;
use report::Place;

// The amounts that may be absent: BT-107, BT-108, BT-110, BT-111, BT-113 and BT-114.
#[derive(Clone, Copy)]
pub struct Sums {
    pub allowance: Option<InvoiceAmount>,
    pub charge: Option<InvoiceAmount>,
    pub vat: Option<InvoiceAmount>,
    pub accounting: Option<InvoiceAmount>,
    pub paid: Option<InvoiceAmount>,
    pub rounding: Option<InvoiceAmount>,
}

// BG-22: BT-106, BT-109, BT-112 and BT-115, and the amounts that may be absent.
#[derive(Clone, Copy)]
pub struct Totals {
    pub line: InvoiceAmount,
    pub taxable: InvoiceAmount,
    pub gross: InvoiceAmount,
    pub due: InvoiceAmount,
    pub sums: Sums,
}

// BT-5 and BT-6 as read so far.
#[derive(Clone, Copy)]
pub struct Currencies {
    pub bt5: Option<Place>,
    pub bt6: Option<Place>,
}

// What the children of a summation n are read by.
#[derive(Clone, Copy)]
pub(crate) struct Frame {
    pub(crate) mode: u32,
    pub(crate) read: Currencies,
    pub(crate) n: usize,
}
