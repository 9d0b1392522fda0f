// The paths of entries: where in the settlement an entry's element stands. Names above the settlement
// are cut, so a full path starts at record 0.
ghost use Rattle.std.specs.Prelude.{◌≡◌};
ghost use Rattle.names.specs.Path.{path_number};

// Every path that an entry can have, in the order in which the reader meets them.
#[derive(Clone, Copy, Debug, PartialEq, Eq)]
pub enum Path {
    PaymentMeansFinancialCard = 1,
    PaymentMeansDebtorAccount = 2,
    PaymentMeansCreditorAccount = 3,
    PaymentMeansCreditorInstitution = 4,
    TaxPointDateTimeString = 5,
    TaxPointDateString = 6,
    TradeTaxDueDateTypeCode = 7,
    SettlementTradeTaxDueDateTypeCode = 8,
    SettlementTradeTax = 9,
    TradeTaxBasisAmount = 10,
    TradeTaxCalculatedAmount = 11,
    TradeTaxTypeCode = 12,
    TradeTaxRateApplicablePercent = 13,
    PeriodStartDateTimeString = 14,
    PeriodStartDateString = 15,
    PeriodEndDateTimeString = 16,
    PeriodEndDateString = 17,
    AllowanceChargeIndicator = 18,
    CategoryTradeTaxTypeCode = 19,
    SettlementAllowanceChargeCategoryTradeTax = 20,
    CategoryTradeTaxRateApplicablePercent = 21,
    SettlementAllowanceCharge = 22,
    AllowanceChargeActualAmount = 23,
    AllowanceChargeBasisAmount = 24,
    AllowanceChargeCalculationPercent = 25,
    AppliedTradeTaxTypeCode = 26,
    SettlementLogisticsChargeAppliedTradeTax = 27,
    AppliedTradeTaxRateApplicablePercent = 28,
    SettlementLogisticsCharge = 29,
    LogisticsChargeAppliedAmount = 30,
    PaymentTermsDueDateTimeString = 31,
    PaymentTermsDueDateString = 32,
    SummationChargeTotalAmount = 33,
    SummationAllowanceTotalAmount = 34,
    SummationTaxTotalAmount = 35,
    SummationRoundingAmount = 36,
    SummationTotalPrepaidAmount = 37,
    SettlementSummation = 38,
    SummationLineTotalAmount = 39,
    SummationTaxBasisTotalAmount = 40,
    SummationGrandTotalAmount = 41,
    SummationDuePayableAmount = 42,
    SettlementInvoiceReferencedDocument = 43,
    ReferencedDocumentIssueDateTimeString = 44,
    ReferencedDocumentIssueDateString = 45,
    PaymentTermsDirectDebitMandate = 46,
    SettlementCreditorReference = 47,
}

// The path's number in docs/PATHS.md.
impl From<Path> for u32 {
    ghost from_gives = { λ path n. n ≡ path_number path };

    fn from(path: Path) -> u32 {
        path as u32
    }
}
