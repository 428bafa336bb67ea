//! Laws of small texts: each text is read from what writes it and from nothing else, what is
//! printed is read back, and each type's form as a tree has the laws of field tables.

ghost use Rattle.std.specs.Prelude.{◌≡◌, ◌<◌, ◌^◌, ◌↔◌, true, ℕ, List, Some, decimal, IsUtf8, None, Ok};
ghost use Rattle.std.specs.Cmp.Lexicographic.{slice_cmp};
ghost use Rattle.std.specs.Ordering.{nat_cmp};
ghost use Rattle.sentry_tables.specs.Cell.{Cell};
ghost use Rattle.sentry_tables.specs.Basic.{IsText};
ghost use Rattle.sentry_tables.specs.Lawful.{IsNormal, RefusesNull};
ghost use Rattle.sentry_tables.specs.Laws.{HasLaws};
ghost use Rattle.sentry_tables.specs.Cells.{natural_cell};
ghost use Rattle.sentry_text.specs.Number.{IsNumber, number_of};
ghost use Rattle.sentry_text.specs.ProjectId.{project_text, organization_value, error_index};
ghost use Rattle.sentry_text.specs.ProjectTree.{project_kind, organization_kind, organization_text_kind};
ghost use Rattle.sentry_text.specs.Severity.{IsSeverity, severity_kind};
ghost use Rattle.sentry_text.specs.declared.log_severity_number.LogSeverityNumber.{LogSeverityNumber as LogSeverityNumbers};
ghost use Rattle.sentry_text.specs.declared.project_id.ProjectId.{ProjectId as ProjectIds};
ghost use Rattle.sentry_text.specs.declared.project_id.OrganizationId.{OrganizationId as OrganizationIds};
ghost use Rattle.sentry_text.specs.declared.project_id.ParseProjectIdError.{ParseProjectIdError as ParseProjectIdErrors};
ghost use Rattle.sentry_text.specs.Crontab.{SplitsInto};
ghost use Rattle.sentry_text.specs.declared.addr.Addr.{Addr as Addresses};
ghost use Rattle.sentry_text.specs.declared.addr.RegVal.{RegVal as Registers};
ghost use Rattle.sentry_text.specs.declared.ip.IpAddress.{IpAddress};
ghost use Rattle.sentry_text.specs.declared.ip.IpAddress.TheVariants.{Auto, Exact};
ghost use Rattle.std.specs.declared.cmp.Ordering.TheVariants.{Less, Equal, Greater};
ghost use Rattle.std.specs.declared.net.ip_addr.IpAddr.{IpAddr};
ghost use Rattle.std.specs.Net.Grammar.{IsIpText};
ghost use Rattle.std.specs.Net.Text.{ip_text};
ghost use Rattle.sentry_text.specs.Ip.{IsIpAddress, IsStoredIp, IsStoredIpAddress, ip_of, ip_address_of, ip_address_text};
ghost use Rattle.sentry_text.specs.Address.{IsAddress, address_of, address_text};
ghost use Rattle.sentry_text.specs.AddressTree.{address_kind};
ghost use Rattle.sentry_text.specs.IpTree.{IsIpCell, ip_kind, IsIpAddressCell, ip_address_kind};
ghost use Rattle.url.specs.declared.scheme.SchemeType.TheVariants.{SpecialNotFile};
ghost use Rattle.url.specs.Canonical.{IsCanonical};
ghost use Rattle.url.specs.Parser.{parse_url};
ghost use Rattle.url.specs.Parts.{Parts, kind_of, IsValid};
ghost use Rattle.serde_json.specs.Data.{Data};
ghost use Rattle.sentry_json.specs.Sound.{IsSound};
ghost use Rattle.sentry_tables.specs.Meets.{IsReadable, IsStored};
ghost use Rattle.sentry_tables.specs.Shows.{Shows};
ghost use Rattle.sentry_text.specs.UrlTree.{url_cell, url_kind, UrlReadsBack};

use crate::{Addr, LogSeverityNumber, OrganizationId, ParseProjectIdError, ProjectId, RegVal};
use url::Url;

/// Whole numbers in base 10, such as organization ids.
pub fn numbers()
    ensures texts { (text : List ℕ) (n : ℕ) → number_of 10 text ≡ Some n ↔ IsNumber 10 text n }
    ensures read_back { (n : ℕ) → n < 2 ^ 64 → number_of 10 (decimal n) ≡ Some n }
{}

/// Project ids in JSON trees; each is its own normal form.
pub fn project_trees()
    ensures laws { HasLaws project_kind }
    ensures no_null { RefusesNull project_kind }
    ensures normal { (c : Cell) → IsText c → IsNormal project_kind c }
{}

/// Organization ids in JSON trees, as numbers and as strings; each is its own normal form.
pub fn organization_trees()
    ensures numbers { HasLaws organization_kind }
    ensures texts { HasLaws organization_text_kind }
    ensures no_null_number { RefusesNull organization_kind }
    ensures no_null_text { RefusesNull organization_text_kind }
    ensures normal_number { (n : ℕ) → n < 2 ^ 64 → IsNormal organization_kind (natural_cell n) }
    ensures normal_text { (n : ℕ) → n < 2 ^ 64 → IsNormal organization_text_kind (natural_cell n) }
{}

/// Severity numbers of logs; each is its own normal form.
pub fn log_severity_numbers()
    ensures least { LogSeverityNumber.MIN ≡ 1 }
    ensures greatest { LogSeverityNumber.MAX ≡ 24 }
    ensures laws { HasLaws severity_kind }
    ensures no_null { RefusesNull severity_kind }
    ensures normal { (n : ℕ) → IsSeverity n → IsNormal severity_kind (natural_cell n) }
    ensures equal { (a b : LogSeverityNumbers) → ⟦<LogSeverityNumber as PartialEq>⟧.eq a b ≡ true ↔
        (a ≡ b) }
{}

/// Two ids are equal exactly if their texts or numbers are equal.
pub fn equal_ids()
    ensures projects { (a b : ProjectIds) → ⟦<ProjectId as PartialEq>⟧.eq a b ≡ true ↔
        (project_text a ≡ project_text b) }
    ensures organizations { (a b : OrganizationIds) →
        ⟦<OrganizationId as PartialEq>⟧.eq a b ≡ true ↔
        (organization_value a ≡ organization_value b) }
{}

/// Project ids are ordered by the bytes of their texts.
pub fn ordered_projects()
    ensures { (a b : ProjectIds) →
        ⟦<ProjectId as Ord>⟧.cmp a b ≡ slice_cmp nat_cmp (project_text a) (project_text b) }
{}

/// Two errors are equal exactly if they are the same variant.
pub fn equal_errors()
    ensures { (a b : ParseProjectIdErrors) → ⟦<ParseProjectIdError as PartialEq>⟧.eq a b ≡ true ↔
        (a ≡ b) }
{}

/// Errors are ordered by the declaration order of their variants.
pub fn ordered_errors()
    ensures { (a b : ParseProjectIdErrors) →
        ⟦<ParseProjectIdError as Ord>⟧.cmp a b ≡ nat_cmp (error_index a) (error_index b) }
{}

/// Each UTF-8 text splits into words in exactly one way.
#[tactic(auto, using(crate::proofs::CrontabSplits::some_words, crate::proofs::CrontabSplits::same_words))]
pub fn words()
    ensures some { (text : List ℕ) → IsUtf8 text → (words : List (List ℕ)) × SplitsInto text words }
    ensures same { (text : List ℕ) (a b : List (List ℕ)) → SplitsInto text a → SplitsInto text b →
        a ≡ b }
{}

/// Addresses and register values.
pub fn addresses()
    ensures texts { (text : List ℕ) (n : ℕ) → address_of text ≡ Some n ↔ IsAddress text n }
    ensures read_back { (n : ℕ) → n < 2 ^ 64 → address_of (address_text n) ≡ Some n }
{}

/// IP addresses.
#[tactic(auto, using(crate::proofs::Ips::ip_of_iff, crate::proofs::Ips::written_ip))]
pub fn ips()
    ensures texts { (text : List ℕ) (ip : IpAddr) → ip_of text ≡ Some ip ↔ IsIpText text ip }
    ensures read_back { (ip : IpAddr) → IsStoredIp ip → ip_of (ip_text ip) ≡ Some ip }
{}

/// IP addresses of users, with `{{auto}}`.
#[tactic(auto, using(crate::proofs::Ips::ip_address_of_iff, crate::proofs::Ips::written_ip_address))]
pub fn ip_addresses()
    ensures texts { (text : List ℕ) (a : IpAddress) → ip_address_of text ≡ Some a ↔
        IsIpAddress text a }
    ensures read_back { (a : IpAddress) → IsStoredIpAddress a →
        ip_address_of (ip_address_text a) ≡ Some a }
{}

/// Addresses and register values in JSON trees; each is its own normal form.
pub fn address_trees()
    ensures laws { HasLaws address_kind }
    ensures no_null { RefusesNull address_kind }
    ensures normal { (n : ℕ) → n < 2 ^ 64 → IsNormal address_kind (natural_cell n) }
{}

/// IP addresses in JSON trees; each reads back and is its own normal form.
pub fn ip_trees()
    ensures laws { HasLaws ip_kind }
    ensures no_null { RefusesNull ip_kind }
    ensures normal { (c : Cell) → IsIpCell c → IsNormal ip_kind c }
{}

/// IP addresses of users in JSON trees; each reads back and is its own normal form.
pub fn ip_address_trees()
    ensures laws { HasLaws ip_address_kind }
    ensures no_null { RefusesNull ip_address_kind }
    ensures normal { (c : Cell) → IsIpAddressCell c → IsNormal ip_address_kind c }
{}

/// Two addresses or two register values are equal exactly if their numbers are equal; two IP
/// addresses of users exactly if they are the same.
pub fn equal_addresses()
    ensures addresses { (a b : Addresses) → ⟦<Addr as PartialEq>⟧.eq a b ≡ true ↔ (a.0 ≡ b.0) }
    ensures registers { (a b : Registers) → ⟦<RegVal as PartialEq>⟧.eq a b ≡ true ↔ (a.0 ≡ b.0) }
    ensures ip_addresses { (a b : IpAddress) → ⟦<crate::IpAddress as PartialEq>⟧.eq a b ≡ true ↔
        (a ≡ b) }
{}

/// Addresses and register values default to 0; the IP address of a user defaults to `Auto`.
pub fn default_addresses()
    ensures addresses { (a : Addresses) → ⟦<Addr as Default>⟧.is_default a → a.0 ≡ 0 }
    ensures registers { (a : Registers) → ⟦<RegVal as Default>⟧.is_default a → a.0 ≡ 0 }
    ensures ip_addresses { (a : IpAddress) → ⟦<crate::IpAddress as Default>⟧.is_default a →
        a ≡ Auto }
{}

/// Addresses and register values are ordered by their numbers. Of the IP addresses of users, `Auto`
/// comes first, then the given ones in the order of IP addresses.
pub fn ordered_addresses()
    ensures addresses { (a b : Addresses) → ⟦<Addr as Ord>⟧.cmp a b ≡ nat_cmp a.0 b.0 }
    ensures registers { (a b : Registers) → ⟦<RegVal as Ord>⟧.cmp a b ≡ nat_cmp a.0 b.0 }
    ensures autos { ⟦<crate::IpAddress as Ord>⟧.cmp Auto Auto ≡ Equal }
    ensures auto_first { (ip : IpAddr) → ⟦<crate::IpAddress as Ord>⟧.cmp Auto (Exact ip) ≡ Less }
    ensures exact_last { (ip : IpAddr) → ⟦<crate::IpAddress as Ord>⟧.cmp (Exact ip) Auto ≡ Greater }
    ensures exact { (ip other : IpAddr) →
        ⟦<crate::IpAddress as Ord>⟧.cmp (Exact ip) (Exact other) ≡
        ⟦<std::net::IpAddr as Ord>⟧.cmp ip other }
{}

/// A URL parsed from UTF-8 text is valid, whatever its scheme, and reads back from its own text.
pub fn parsed_urls()
    ensures valid { (text : List ℕ) (url : Parts) → IsUtf8 text → parse_url None text ≡ Ok url →
        IsValid url }
    ensures back { (text : List ℕ) (url : Parts) → IsUtf8 text → parse_url None text ≡ Ok url →
        UrlReadsBack url }
{}

/// URLs in JSON trees. Each is its own normal form and is written as its text. Equal cells are
/// those of equal URLs; each URL that a tree shows is readable.
pub fn url_trees()
    ensures laws { HasLaws url_kind }
    ensures no_null { RefusesNull url_kind }
    ensures cells { (a b : Parts) → url_cell a ≡ url_cell b → a ≡ b }
    ensures stored { (url : Parts) → IsValid url → IsStored url_kind (url_cell url) }
    ensures shown { (now : Cell) (tree : Data) (c : Cell) → IsSound tree →
        Shows url_kind now tree c →
        IsReadable url_kind c }
    ensures normal { (c : Cell) → IsStored url_kind c → IsReadable url_kind c →
        IsNormal url_kind c }
{}

/// Each valid URL of the schemes `http`, `https`, `ws`, `wss` and `ftp` reads back from its own
/// text, so it is readable; a valid URL that the parser could have written is readable whatever its
/// scheme.
pub fn special_urls_are_readable()
    ensures back { (url : Parts) → IsValid url → kind_of url ≡ SpecialNotFile → UrlReadsBack url }
    ensures special { (url : Parts) → IsValid url → kind_of url ≡ SpecialNotFile →
        IsReadable url_kind (url_cell url) }
    ensures canonical { (url : Parts) → IsValid url → IsCanonical url →
        IsReadable url_kind (url_cell url) }
{}

/// Two URLs that read back from their texts are equal exactly if their parts are equal.
#[tactic(auto, using(crate::proofs::UrlTrees::urls_decide))]
pub fn equal_urls()
    ensures { (a b : Parts) → UrlReadsBack a → UrlReadsBack b → ⟦<Url as PartialEq>⟧.eq a b ≡ true ↔
        (a ≡ b) }
{}
