// The texts of paths.
ghost use Rattle.std.specs.Prelude.{◌≡◌};
ghost use Rattle.labels.specs.PathText.{path_text_at};

use crate::table::text_of;

// The paths as the Rust prints them, by their numbers from 0, which none has.
const TEXTS: [&str; 48] = [
    "",
    "SpecifiedTradeSettlementPaymentMeans/ApplicableTradeSettlementFinancialCard",
    "SpecifiedTradeSettlementPaymentMeans/PayerPartyDebtorFinancialAccount",
    "SpecifiedTradeSettlementPaymentMeans/PayeePartyCreditorFinancialAccount",
    "SpecifiedTradeSettlementPaymentMeans/PayeeSpecifiedCreditorFinancialInstitution",
    "ApplicableTradeTax/TaxPointDate/DateTimeString",
    "ApplicableTradeTax/TaxPointDate/DateString",
    "ApplicableTradeTax/DueDateTypeCode",
    "ApplicableHeaderTradeSettlement/ApplicableTradeTax/DueDateTypeCode",
    "ApplicableHeaderTradeSettlement/ApplicableTradeTax",
    "ApplicableTradeTax/BasisAmount",
    "ApplicableTradeTax/CalculatedAmount",
    "ApplicableTradeTax/TypeCode",
    "ApplicableTradeTax/RateApplicablePercent",
    "BillingSpecifiedPeriod/StartDateTime/DateTimeString",
    "BillingSpecifiedPeriod/StartDateTime/DateString",
    "BillingSpecifiedPeriod/EndDateTime/DateTimeString",
    "BillingSpecifiedPeriod/EndDateTime/DateString",
    "SpecifiedTradeAllowanceCharge/ChargeIndicator/Indicator",
    "CategoryTradeTax/TypeCode",
    "ApplicableHeaderTradeSettlement/SpecifiedTradeAllowanceCharge/CategoryTradeTax",
    "CategoryTradeTax/RateApplicablePercent",
    "ApplicableHeaderTradeSettlement/SpecifiedTradeAllowanceCharge",
    "SpecifiedTradeAllowanceCharge/ActualAmount",
    "SpecifiedTradeAllowanceCharge/BasisAmount",
    "SpecifiedTradeAllowanceCharge/CalculationPercent",
    "AppliedTradeTax/TypeCode",
    "ApplicableHeaderTradeSettlement/SpecifiedLogisticsServiceCharge/AppliedTradeTax",
    "AppliedTradeTax/RateApplicablePercent",
    "ApplicableHeaderTradeSettlement/SpecifiedLogisticsServiceCharge",
    "SpecifiedLogisticsServiceCharge/AppliedAmount",
    "SpecifiedTradePaymentTerms/DueDateDateTime/DateTimeString",
    "SpecifiedTradePaymentTerms/DueDateDateTime/DateString",
    "SpecifiedTradeSettlementHeaderMonetarySummation/ChargeTotalAmount",
    "SpecifiedTradeSettlementHeaderMonetarySummation/AllowanceTotalAmount",
    "SpecifiedTradeSettlementHeaderMonetarySummation/TaxTotalAmount",
    "SpecifiedTradeSettlementHeaderMonetarySummation/RoundingAmount",
    "SpecifiedTradeSettlementHeaderMonetarySummation/TotalPrepaidAmount",
    "ApplicableHeaderTradeSettlement/SpecifiedTradeSettlementHeaderMonetarySummation",
    "SpecifiedTradeSettlementHeaderMonetarySummation/LineTotalAmount",
    "SpecifiedTradeSettlementHeaderMonetarySummation/TaxBasisTotalAmount",
    "SpecifiedTradeSettlementHeaderMonetarySummation/GrandTotalAmount",
    "SpecifiedTradeSettlementHeaderMonetarySummation/DuePayableAmount",
    "ApplicableHeaderTradeSettlement/InvoiceReferencedDocument",
    "InvoiceReferencedDocument/FormattedIssueDateTime/DateTimeString",
    "InvoiceReferencedDocument/FormattedIssueDateTime/DateString",
    "SpecifiedTradePaymentTerms/DirectDebitMandateID",
    "ApplicableHeaderTradeSettlement/CreditorReferenceID",
];

// The text of the path that has a number.
pub fn path_text(number: usize) -> &'static str
    ensures { result.now ≡ path_text_at number }
{
    text_of(&TEXTS, number)
}
