//! Laws of DSNs, schemes, organization ids and client authentication.

ghost use Rattle.std.specs.Prelude.{◌≡◌, ◌⊎◌, ◌↔◌, true, ℕ, List, IsAscii, IsUtf8};
ghost use Rattle.url.specs.Parts.{Parts, IsValid};
ghost use Rattle.serde_json.specs.Data.{Data};
ghost use Rattle.sentry_json.specs.Sound.{IsSound};
ghost use Rattle.sentry_tables.specs.Cell.{Cell};
ghost use Rattle.sentry_tables.specs.Laws.{HasLaws};
ghost use Rattle.sentry_tables.specs.Lawful.{RefusesNull};
ghost use Rattle.sentry_tables.specs.Meets.{IsReadable, IsStored};
ghost use Rattle.sentry_tables.specs.Shows.{Shows};
ghost use Rattle.std.specs.Ordering.{nat_cmp};
ghost use Rattle.sentry_keys.specs.declared.auth.ParseAuthError.{ParseAuthError as ParseAuthErrors};
ghost use Rattle.sentry_keys.specs.declared.dsn.Dsn.{Dsn as Dsns};
ghost use Rattle.sentry_keys.specs.declared.scheme.Scheme.{Scheme as Schemes};
ghost use Rattle.sentry_keys.specs.declared.dsn_error.ParseDsnError.{ParseDsnError};
ghost use Rattle.sentry_keys.specs.Dsn.{DsnParts, IsDsn, IsDsnText, Refuses, IsRefused, dsn_parts, dsn_text, DsnReadsBack};
ghost use Rattle.sentry_keys.specs.DsnScheme.{scheme_index};
ghost use Rattle.sentry_keys.specs.DsnOrganization.{NamesOrganization};
ghost use Rattle.sentry_keys.specs.DsnTree.{dsn_kind, parts_cell};

pub use crate::auth_laws::{auth_texts, auth_trees, auths_of_pairs};
use crate::{Dsn, ParseAuthError, Scheme};

/// URLs: each is the URL of one DSN, or is rejected with one error.
pub fn dsns()
    ensures parts { (url : Parts) (d e : DsnParts) → IsDsn url d → IsDsn url e → d ≡ e }
    ensures refusals { (url : Parts) (e f : ParseDsnError) → Refuses url e → Refuses url f → e ≡ f }
    ensures apart { (url : Parts) (d : DsnParts) (e : ParseDsnError) → IsDsn url d → Refuses url e →
        ⊥ }
    ensures decided { (url : Parts) → ((d : DsnParts) × IsDsn url d) ⊎
        ((e : ParseDsnError) × Refuses url e) }
{}

/// Texts: each is the text of one DSN, or is rejected with one error.
pub fn dsn_texts()
    ensures parts { (text : List ℕ) (d e : DsnParts) → IsDsnText text d → IsDsnText text e → d ≡ e }
    ensures refusals { (text : List ℕ) (e f : ParseDsnError) → IsRefused text e → IsRefused text f →
        e ≡ f }
    ensures apart { (text : List ℕ) (d : DsnParts) (e : ParseDsnError) → IsDsnText text d →
        IsRefused text e → ⊥ }
    ensures decided { (text : List ℕ) → ((d : DsnParts) × IsDsnText text d) ⊎
        ((e : ParseDsnError) × IsRefused text e) }
{}

/// Round trip: the printed text of a DSN of any valid URL is ASCII and parses to the same parts. If
/// the DSN has no secret key, the printed text still has a colon after the public key, unlike the
/// URL's own text. The same holds of each DSN that a UTF-8 text names, since the URL is valid.
pub fn dsns_read_back()
    ensures ascii { (url : Parts) (d : DsnParts) → IsValid url → IsDsn url d →
        IsAscii (dsn_text d) }
    ensures back { (url : Parts) (d : DsnParts) → IsValid url → IsDsn url d → DsnReadsBack d }
    ensures named { (text : List ℕ) (d : DsnParts) → IsUtf8 text → IsDsnText text d →
        IsAscii (dsn_text d) × DsnReadsBack d }
{}

/// DSNs in JSON: null is rejected, and a readable DSN reads back from its written tree. Each DSN
/// that a tree shows is readable, and each DSN of a valid URL is stored and readable.
pub fn dsn_trees()
    ensures laws { HasLaws dsn_kind }
    ensures null { RefusesNull dsn_kind }
    ensures shown { (now : Cell) (tree : Data) (c : Cell) → IsSound tree →
        Shows dsn_kind now tree c →
        IsReadable dsn_kind c }
    ensures valid { (url : Parts) (d : DsnParts) → IsValid url → IsDsn url d →
        IsStored dsn_kind (parts_cell d) × IsReadable dsn_kind (parts_cell d) }
{}

/// Two DSNs are equal exactly if their parts are equal.
pub fn equal_dsns()
    ensures { (a b : Dsns) → ⟦<Dsn as PartialEq>⟧.eq a b ≡ true ↔ (dsn_parts a ≡ dsn_parts b) }
{}

/// Two schemes, or two `ParseAuthError`s, are equal exactly if they are the same variant.
pub fn equal_variants()
    ensures schemes { (a b : Schemes) → ⟦<Scheme as PartialEq>⟧.eq a b ≡ true ↔ (a ≡ b) }
    ensures errors { (a b : ParseAuthErrors) → ⟦<ParseAuthError as PartialEq>⟧.eq a b ≡ true ↔
        (a ≡ b) }
{}

/// Order of schemes: `Http` is less than `Https`.
pub fn ordered_schemes()
    ensures { (a b : Schemes) →
        ⟦<Scheme as Ord>⟧.cmp a b ≡ nat_cmp (scheme_index a) (scheme_index b) }
{}

/// A host names at most one organization.
pub fn organizations()
    ensures { (host : List ℕ) (m n : ℕ) → NamesOrganization host m → NamesOrganization host n →
        m ≡ n }
{}
