// The code of the date at which VAT becomes accountable (BT-8), as CII writes it.
ghost use Rattle.std.specs.Prelude.{◌≡◌};
ghost use Rattle.codes.specs.VatPoint.{vat_point_answer, vat_point_date_code_of};

// The codes of UNTDID 2475, with those of UNTDID 2005 that mean the same.
const VAT_POINT_DATE_CODES: [(&[u8], u32); 3] = [(b"5", 3), (b"29", 35), (b"72", 432)];

// The code of UNTDID 2005 that means what a code of UNTDID 2475 means.
pub fn vat_point_date_code_from_cii(s: &[u8]) -> Option<u32>
    ensures { vat_point_answer result ≡ vat_point_date_code_of s.now }
{
    text::meaning_of(&VAT_POINT_DATE_CODES, s)
}
