//! Laws of the texts: each is read from what writes it and from nothing else, and what is printed
//! is read back.

ghost use Rattle.std.specs.Cmp.Lexicographic.{slice_cmp};
ghost use Rattle.std.specs.Ordering.{nat_cmp, ordering_then};
ghost use Rattle.std.specs.Prelude.{◌≡◌, ◌<◌, ◌^◌, ◌↔◌, true, IsTrue, ℕ, List, Some, length, All};
ghost use Rattle.sentry_identifiers.specs.DebugId.{IsDebugId, debug_id_of, debug_id_text, debug_parts};
ghost use Rattle.sentry_identifiers.specs.CodeDigits.{code_digits, are_code_digits};
ghost use Rattle.hex.specs.Hex.{IsBytes, encode_lower};
ghost use Rattle.sentry_identifiers.specs.HexId.{IsHexId, hex_id_of, span_bytes, trace_bytes};
ghost use Rattle.sentry_tables.specs.Cell.{Cell};
ghost use Rattle.sentry_tables.specs.Kind.{draw};
ghost use Rattle.sentry_tables.specs.Lawful.{IsNormal, RefusesNull, RuleLaws};
ghost use Rattle.sentry_tables.specs.Laws.{HasLaws};
ghost use Rattle.sentry_identifiers.specs.HexIdTree.{IsOctets, span_id_kind, trace_id_kind};
ghost use Rattle.sentry_identifiers.specs.DebugIdTree.{IsDebugCell, debug_kind};
ghost use Rattle.sentry_identifiers.specs.CodeIdTree.{IsCodeCell, code_kind};
ghost use Rattle.sentry_identifiers.specs.CodeId.{code_text};
ghost use Rattle.sentry_identifiers.specs.Uuids.{IsUuid, IsRandomUuid, uuid_of, hyphenated, simple, hyphenated_kind, simple_kind};
ghost use Rattle.sentry_identifiers.specs.declared.span_id.SpanId.{SpanId as SpanIds};
ghost use Rattle.sentry_identifiers.specs.declared.trace_id.TraceId.{TraceId as TraceIds};
ghost use Rattle.sentry_identifiers.specs.declared.debug_id.DebugId.{DebugId as DebugIds};
ghost use Rattle.sentry_identifiers.specs.declared.code_id.CodeId.{CodeId as CodeIds};

use crate::{CodeId, DebugId, SpanId, TraceId};

/// The text of a UUID, with hyphens or without, reads back as the same UUID.
#[tactic(auto, using(crate::proofs::UuidLaws::hyphenated_back, crate::proofs::UuidLaws::simple_back))]
pub fn uuids()
    ensures hyphenated { (id : Cell) → IsUuid id → uuid_of (hyphenated id) ≡ Some id }
    ensures simple { (id : Cell) → IsUuid id → uuid_of (simple id) ≡ Some id }
{}

/// UUIDs in JSON trees, with hyphens and without; random UUIDs may be drawn, and each is its own
/// normal form.
pub fn uuid_trees()
    ensures hyphenated { HasLaws hyphenated_kind }
    ensures simple { HasLaws simple_kind }
    ensures drawn_hyphenated { RuleLaws (draw IsRandomUuid) hyphenated_kind }
    ensures drawn_simple { RuleLaws (draw IsRandomUuid) simple_kind }
    ensures normal_hyphenated { (id : Cell) → IsUuid id → IsNormal hyphenated_kind id }
    ensures normal_simple { (id : Cell) → IsUuid id → IsNormal simple_kind id }
{}

/// Span ids (8 bytes) and trace ids (16 bytes).
pub fn hex_ids()
    ensures texts { (n : ℕ) (text bytes : List ℕ) → hex_id_of n text ≡ Some bytes ↔
        IsHexId n text bytes }
    ensures read_back { (n : ℕ) (bytes : List ℕ) → length bytes ≡ n → IsBytes bytes
        → hex_id_of n (encode_lower bytes) ≡ Some bytes }
{}

/// Debug identifiers.
pub fn debug_ids()
    ensures texts { (text bytes : List ℕ) (n : ℕ) → debug_id_of text ≡ Some (bytes, n) ↔
        IsDebugId text bytes n }
    ensures read_back { (bytes : List ℕ) (n : ℕ) → length bytes ≡ 16 → All (λ b. b < 256) bytes →
        n < 2 ^ 32
        → debug_id_of (debug_id_text bytes n) ≡ Some (bytes, n) }
{}

/// Code identifiers.
#[tactic(auto, using(crate::proofs::CodeIds::kept_are_digits, crate::proofs::CodeIds::digits_are_kept))]
pub fn code_ids()
    ensures digits { (text : List ℕ) → IsTrue (are_code_digits (code_digits text)) }
    ensures read_back { (digits : List ℕ) → IsTrue (are_code_digits digits) →
        code_digits digits ≡ digits }
{}

/// Span ids and trace ids in JSON trees; any bytes may be drawn, and each id is its own normal
/// form.
pub fn hex_id_trees()
    ensures spans { HasLaws span_id_kind }
    ensures traces { HasLaws trace_id_kind }
    ensures drawn_spans { RuleLaws (draw (IsOctets 8)) span_id_kind }
    ensures drawn_traces { RuleLaws (draw (IsOctets 16)) trace_id_kind }
{}

/// Debug identifiers in JSON trees; each is its own normal form.
#[tactic(auto, using(crate::proofs::DebugIdTrees::debug_has_laws, crate::proofs::DebugIdTrees::debug_refuses_null, crate::proofs::DebugIdTrees::debug_normal))]
pub fn debug_id_trees()
    ensures laws { HasLaws debug_kind }
    ensures no_null { RefusesNull debug_kind }
    ensures normal { (c : Cell) → IsDebugCell c → IsNormal debug_kind c }
{}

/// Code identifiers in JSON trees; each is its own normal form.
#[tactic(auto, using(crate::proofs::CodeIdTrees::code_has_laws, crate::proofs::CodeIdTrees::code_refuses_null, crate::proofs::CodeIdTrees::code_normal))]
pub fn code_id_trees()
    ensures laws { HasLaws code_kind }
    ensures no_null { RefusesNull code_kind }
    ensures normal { (c : Cell) → IsCodeCell c → IsNormal code_kind c }
{}

/// Two ids are equal exactly if their bytes, parts or texts are equal.
pub fn equal_ids()
    ensures spans { (a b : SpanIds) → ⟦<SpanId as PartialEq>⟧.eq a b ≡ true ↔
        (span_bytes a ≡ span_bytes b) }
    ensures traces { (a b : TraceIds) → ⟦<TraceId as PartialEq>⟧.eq a b ≡ true ↔
        (trace_bytes a ≡ trace_bytes b) }
    ensures debug_ids { (a b : DebugIds) → ⟦<DebugId as PartialEq>⟧.eq a b ≡ true ↔
        (debug_parts a ≡ debug_parts b) }
    ensures code_ids { (a b : CodeIds) → ⟦<CodeId as PartialEq>⟧.eq a b ≡ true ↔
        (code_text a ≡ code_text b) }
{}

/// Debug identifiers are ordered by the bytes of their UUIDs, then by their appendices; code
/// identifiers by the bytes of their texts.
pub fn ordered_ids()
    ensures debug_ids { (a b : DebugIds) → ⟦<DebugId as Ord>⟧.cmp a b
        ≡ ordering_then (slice_cmp nat_cmp (debug_parts a).0 (debug_parts b).0)
        (nat_cmp (debug_parts a).1 (debug_parts b).1) }
    ensures code_ids { (a b : CodeIds) →
        ⟦<CodeId as Ord>⟧.cmp a b ≡ slice_cmp nat_cmp (code_text a) (code_text b) }
{}
