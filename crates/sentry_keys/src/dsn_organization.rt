//! The organization id in the host of a DSN.

ghost use Rattle.std.specs.Prelude.{◌≡◌, ◌↔◌, ◌∷◌, [], ℕ, List, IsTrue, MatchOption};
ghost use Rattle.sentry_text.specs.ProjectId.{organization_value};
ghost use Rattle.sentry_keys.specs.DsnOrganization.{labels, sentry, IsSentryHost, IsIngestHost, IsDigits, NamesOrganization};

use sentry_text::OrganizationId;

// Splits the first label off a host; `None` if the host has one label only.
fn first_label(host: &str) -> Option<(&str, &str)>
    ensures { MatchOption result (labels host.now ≡ host.now ∷ []) (λ x.
        labels host.now ≡ x.0.now ∷ labels x.1.now) }
{
    host.split_once('.')
}

fn is_sentry_io(host: &str) -> bool
    ensures { IsTrue result ↔ (labels host.now ≡ sentry) }
{
    host == "sentry.io"
}

// Whether the host is `sentry.io` or `X.sentry.io`, where `X` is one label.
fn is_sentry(host: &str) -> bool
    ensures { IsTrue result ↔ IsSentryHost (labels host.now) }
{
    is_sentry_io(host) || first_label(host).is_some_and(|(_region, rest)| is_sentry_io(rest))
}

// Returns `N` of a host `oN.ingest.sentry.io` or `oN.ingest.X.sentry.io`; `N` may be any text.
fn ingest_number(host: &str) -> Option<&str>
    ensures { MatchOption result ((n : List ℕ) → IsIngestHost (labels host.now) n → ⊥) (λ n.
        IsIngestHost (labels host.now) n.now) }
{
    let (first, rest) = first_label(host)?;
    let number = first.strip_prefix('o')?;
    let (second, rest) = first_label(rest)?;
    if second == "ingest" && is_sentry(rest) {
        Some(number)
    } else {
        None
    }
}

// Parses an organization id of digits only: a leading `+`, which `parse` accepts, is rejected.
fn organization_number(text: &str) -> Option<OrganizationId>
    ensures { MatchOption result ((n : ℕ) → IsDigits text.now n → ⊥) (λ id.
        IsDigits text.now (organization_value id)) }
{
    if text.starts_with('+') {
        return None;
    }
    text.parse::<OrganizationId>().ok()
}

// Returns the organization id in a host.
pub(crate) fn organization_of(host: &str) -> Option<OrganizationId>
    ensures { MatchOption result ((n : ℕ) → NamesOrganization host.now n → ⊥) (λ id.
        NamesOrganization host.now (organization_value id)) }
{
    organization_number(ingest_number(host)?)
}
