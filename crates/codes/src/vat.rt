// The type code of a tax.
ghost use Rattle.std.specs.Prelude.{◌≡◌};
ghost use Rattle.codes.specs.Vat.{vat};

// Whether s is VAT in any case of its letters.
pub fn is_vat(s: &[u8]) -> bool
    ensures { result ≡ vat s.now }
{
    s.eq_ignore_ascii_case(b"vat")
}
