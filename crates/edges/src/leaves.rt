// The leaf functions that cases are run on, by name.
ghost use Rattle.std.specs.Prelude.{◌≡◌, None};
ghost use Rattle.text.specs.Place.{meant};
ghost use Rattle.edges.specs.Names.{leaves};

// The leaf functions that cases are run on.
#[derive(Clone, Copy)]
pub(crate) enum Leaf {
    Utf8,
    Trim,
    Digit,
    Same,
    Compare,
    Part,
    Amount,
    Percentage,
    Date,
    Currency,
    Vat,
    Conformant,
    Format,
    Point,
    Boolean,
    Rule,
}

const LEAVES: [(&[u8], Leaf); 16] = [
    (b"utf8", Leaf::Utf8),
    (b"trim", Leaf::Trim),
    (b"digit", Leaf::Digit),
    (b"same", Leaf::Same),
    (b"compare", Leaf::Compare),
    (b"part", Leaf::Part),
    (b"amount", Leaf::Amount),
    (b"percentage", Leaf::Percentage),
    (b"date", Leaf::Date),
    (b"currency", Leaf::Currency),
    (b"vat", Leaf::Vat),
    (b"conformant", Leaf::Conformant),
    (b"format", Leaf::Format),
    (b"point", Leaf::Point),
    (b"boolean", Leaf::Boolean),
    (b"rule", Leaf::Rule),
];

// The leaf of a name.
pub(crate) fn leaf_of(name: &[u8]) -> Option<Leaf>
    ensures { result ≡ meant None leaves name.now }
{
    text::meaning_of(&LEAVES, name)
}
