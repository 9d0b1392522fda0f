// The static library: both functions of `rulzhamm` under the C calling convention, with its clauses.
// include/rulzhamm.h declares them.
//
// The compiler proves nothing of the caller: that a pointer leads to as many elements as the length
// beside it says, and that what is lent for writing is lent once, is the host's part.
#![tactic(auto)]

ghost use Rattle.std.specs.Prelude.{◌≡◌};
ghost use Rattle.codes.specs.Conformant.{conformant};
ghost use Rattle.settlement.specs.Outcome.{outcome};
ghost use Rattle.reader.specs.Answered.{lent_with, room_of};
ghost use Rattle.rulzhamm.specs.Called.{Called};
ghost use Rattle.rulzhamm.specs.Version.{version};

// Reads a settlement: `rulzhamm::rulzhamm_read`.
#[unsafe(no_mangle)]
pub extern "C" fn rulzhamm_read(
    table: &[u32],
    text: &[u8],
    currency: &[u8],
    identifier: &[u8],
    rules: u32,
    mode: u32,
    held: &mut [i64],
    entries: &mut [i64],
    unmapped: &mut [i64],
    answer: &mut [i64; 65],
)
    ensures { Called (outcome (lent_with mode rules currency.now (conformant identifier.now)) (room_of held.old entries.old unmapped.old) table.now text.now) answer.new held.old held.new entries.old entries.new unmapped.old unmapped.new }
{
    rulzhamm::rulzhamm_read(
        table, text, currency, identifier, rules, mode, held, entries, unmapped, answer,
    );
}

// The library's version: `rulzhamm::rulzhamm_version`.
#[unsafe(no_mangle)]
pub extern "C" fn rulzhamm_version() -> u32
    ensures { result ≡ version }
{
    rulzhamm::rulzhamm_version()
}
