// What is lent beside a table.

// The mode, the rules number, whether the specification identifier is that of a conformant extension, and the
// invoice currency.
#[derive(Clone, Copy)]
pub struct Lent<'a> {
    pub mode: u32,
    pub rules: u32,
    pub extension: bool,
    pub currency: &'a [u8],
}
