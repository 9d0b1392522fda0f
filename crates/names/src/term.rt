// The business terms of entries (EN 16931-1), each with the group that it stands in.
ghost use Rattle.std.specs.Prelude.{◌≡◌};
ghost use Rattle.names.specs.Term.{term_number};

// Every term that an entry can have.
#[derive(Clone, Copy, Debug, PartialEq, Eq)]
pub enum Term {
    Bt106 = 1,
    Bt107 = 2,
    Bt108 = 3,
    Bt109 = 4,
    Bt110 = 5,
    Bt112 = 6,
    Bt113 = 7,
    Bt114 = 8,
    Bt115 = 9,
    Bt116 = 10,
    Bt117 = 11,
    Bt118 = 12,
    Bt119 = 13,
    Bt92 = 14,
    Bt93 = 15,
    Bt94 = 16,
    Bt95 = 17,
    Bt96 = 18,
    Bt99 = 19,
    Bt100 = 20,
    Bt101 = 21,
    Bt102 = 22,
    Bt103 = 23,
    Bt25 = 24,
    Bt8 = 25,
}

// The term's number in docs/TERMS.md.
impl From<Term> for u32 {
    ghost from_gives = { λ term n. n ≡ term_number term };

    fn from(term: Term) -> u32 {
        term as u32
    }
}
