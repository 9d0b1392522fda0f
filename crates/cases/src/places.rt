// Where a byte stands in a line.
ghost use Rattle.std.specs.Prelude.{◌≡◌, ◌+◌, ◌≤◌, ◌==◌, length, position};
ghost use Rattle.cases.specs.Places.{index_of, slice};

// The place of the first byte b.
fn first(s: &[u8], b: u8) -> Option<usize>
    ensures { result ≡ position (λ c. c == b) s.now }
{
    s.iter().position(|c| *c == b)
}

// The place of the first byte b from a place on, the end where there is none: it is where a line is cut.
pub fn find(s: &[u8], from: usize, b: u8) -> usize
    ensures place { result ≡ from + index_of b (slice from (length s.now) s.now) }
    ensures low { from ≤ result }
    ensures high { from ≤ length s.now → result ≤ length s.now }
{
    let rest = s.get(from..).unwrap_or(&[]);
    from + first(rest, b).unwrap_or(rest.len())
}
