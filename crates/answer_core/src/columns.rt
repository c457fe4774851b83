//! What each outcome puts into a reply, column by column.
ghost use Rattle.std.specs.Prelude.{◌≡◌};
ghost use Rattle.answer_core.specs.Columns.{extended, is_authoritative, is_truncated, rcode, scope_told};
ghost use Rattle.answer_core.specs.View.{outcome_view};

use crate::outcome::Outcome;
use addr_text::Addr;
use dns_wire::numbers::{BADVERS_UPPER, NOERROR};

/// The flag AA.
pub(crate) fn is_authoritative(outcome: &Outcome<&[Addr]>) -> bool
    ensures { result ≡ is_authoritative (outcome_view outcome.now) }
{
    match outcome {
        Outcome::BadVers | Outcome::Error(_) => false,
        Outcome::Negative(_) | Outcome::Positive { .. } | Outcome::Truncated { .. } => true,
    }
}

/// The flag TC.
pub(crate) fn is_truncated(outcome: &Outcome<&[Addr]>) -> bool
    ensures { result ≡ is_truncated (outcome_view outcome.now) }
{
    match outcome {
        Outcome::BadVers | Outcome::Error(_) | Outcome::Negative(_) | Outcome::Positive { .. } =>
            false,
        Outcome::Truncated { .. } => true,
    }
}

/// The reply's code (RFC 1035 section 4.1.1).
pub(crate) fn rcode(outcome: &Outcome<&[Addr]>) -> u8
    ensures { result ≡ rcode (outcome_view outcome.now) }
{
    match outcome {
        Outcome::BadVers | Outcome::Positive { .. } | Outcome::Truncated { .. } => NOERROR,
        Outcome::Error(code) | Outcome::Negative(code) => *code,
    }
}

/// The upper part of the reply's code (RFC 6891 section 6.1.3).
pub(crate) fn extended(outcome: &Outcome<&[Addr]>) -> u8
    ensures { result ≡ extended (outcome_view outcome.now) }
{
    match outcome {
        Outcome::BadVers => BADVERS_UPPER,
        Outcome::Error(_)
        | Outcome::Negative(_)
        | Outcome::Positive { .. }
        | Outcome::Truncated { .. } => 0,
    }
}

/// The scope with which a subnet is repeated, where it is.
pub(crate) fn scope_told(outcome: &Outcome<&[Addr]>) -> Option<u8>
    ensures { result ≡ scope_told (outcome_view outcome.now) }
{
    match outcome {
        Outcome::BadVers | Outcome::Error(_) => None,
        Outcome::Negative(_) => Some(0),
        Outcome::Positive { scope, .. } | Outcome::Truncated { scope } => Some(*scope),
    }
}
