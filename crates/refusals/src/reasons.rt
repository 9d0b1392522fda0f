// What a refused call is told: why, and for which record.
ghost use Rattle.std.specs.Prelude.{◌≡◌};
ghost use Rattle.refusals.specs.Reasons.{number};

// The refusals 1 to 10, in their order. This crate's checks answer 3 to 9.
#[derive(Clone, Copy, Debug, PartialEq, Eq)]
pub enum Reason {
    Mode = 1,
    Rules,
    Ragged,
    Oversized,
    NotRoot,
    Misplaced,
    Outside,
    NotUtf8,
    NotSettlement,
    Cramped,
}

// Its number, 1 to 10.
impl From<Reason> for u32 {
    ghost from_gives = { λ reason n. n ≡ number reason };

    fn from(reason: Reason) -> u32 {
        reason as u32
    }
}

// A refusal, with the first record that offends.
#[derive(Clone, Copy, Debug, PartialEq, Eq)]
pub struct Refusal {
    pub reason: Reason,
    pub record: usize,
}
