//! Laws of enumerations: each spelling is listed once, words that are printed or written read back,
//! and each JSON form has the laws of field tables and rejects null.

ghost use Rattle.std.specs.Prelude.{◌≡◌, ◌↔◌, true, Bool, ℕ, List, Some, codes, bytes_eq};
ghost use Rattle.std.specs.Ordering.{nat_cmp};
ghost use Rattle.sentry_tables.specs.Lawful.{RefusesNull, IsNormal};
ghost use Rattle.sentry_tables.specs.Laws.{HasLaws};
ghost use Rattle.sentry_words.specs.Sampled.{sampled_word, sampled_of, sampled_kind};
ghost use Rattle.sentry_words.specs.Lookup.{HasEachOnce};
ghost use Rattle.sentry_words.specs.declared.level.Level.{Level as Levels};
ghost use Rattle.sentry_words.specs.Level.{level_words, level_of, level_kind, level_index};
ghost use Rattle.sentry_words.specs.declared.span_status.SpanStatus.{SpanStatus as SpanStatuses};
ghost use Rattle.sentry_words.specs.SpanStatus.{span_status_words, span_status_of, span_status_kind};
ghost use Rattle.sentry_words.specs.declared.session_status.SessionStatus.{SessionStatus as SessionStatuses};
ghost use Rattle.sentry_words.specs.SessionStatus.{session_status_words, session_status_of, session_status_kind, session_status_index};
ghost use Rattle.sentry_words.specs.declared.log_level.LogLevel.{LogLevel as LogLevels};
ghost use Rattle.sentry_words.specs.LogLevel.{log_level_word, log_level_words, log_level_of, log_level_kind};
ghost use Rattle.sentry_words.specs.declared.metric_type.MetricType.{MetricType as MetricTypes};
ghost use Rattle.sentry_words.specs.MetricType.{metric_type_word, metric_type_words, metric_type_of, metric_type_kind};
ghost use Rattle.sentry_words.specs.declared.orientation.Orientation.{Orientation as Orientations};
ghost use Rattle.sentry_words.specs.Orientation.{orientation_word, orientation_words, orientation_of, orientation_kind};
ghost use Rattle.sentry_words.specs.declared.monitor_interval_unit.MonitorIntervalUnit.{MonitorIntervalUnit as MonitorIntervalUnits};
ghost use Rattle.sentry_words.specs.MonitorIntervalUnit.{interval_unit_word, interval_unit_words, interval_unit_of, interval_unit_kind};
ghost use Rattle.sentry_words.specs.declared.monitor_check_in_status.MonitorCheckInStatus.{MonitorCheckInStatus as MonitorCheckInStatuses};
ghost use Rattle.sentry_words.specs.MonitorCheckInStatus.{check_in_status_word, check_in_status_words, check_in_status_of, check_in_status_kind};
ghost use Rattle.std.specs.List.{IsDistinct};
ghost use Rattle.sentry_tables.specs.Norm.{norm};
ghost use Rattle.sentry_words.specs.declared.unit.Unit.{Unit as Units};
ghost use Rattle.sentry_words.specs.Units.{units, spellings, found, known, other, unit_cell, unit_of, unit_text, unit_kind};

use crate::level::Level;
use crate::log_level::LogLevel;
use crate::metric_type::MetricType;
use crate::monitor_check_in_status::MonitorCheckInStatus;
use crate::monitor_interval_unit::MonitorIntervalUnit;
use crate::orientation::Orientation;
use crate::session_status::SessionStatus;
use crate::span_status::SpanStatus;
use crate::unit::Unit;
use std::fmt::Display;
use std::hash::Hash;

/// Laws of booleans as strings.
pub fn sampled_texts_read_back()
    ensures read_back { (truth : Bool) → sampled_of (sampled_word truth) ≡ Some truth }
    ensures laws { HasLaws sampled_kind }
    ensures no_null { RefusesNull sampled_kind }
{}

/// Laws of levels.
pub fn levels()
    ensures once { HasEachOnce level_words }
    ensures printed { (level : Levels) (text : List ℕ) →
        ⟦<Level as Display>⟧.output level ≡ Some text → level_of text ≡ Some level }
    ensures usual { (level : Levels) → ⟦<Level as Default>⟧.is_default level → level ≡ Level.Info }
    ensures laws { HasLaws level_kind }
    ensures no_null { RefusesNull level_kind }
{}

/// Laws of span statuses.
pub fn span_statuses()
    ensures once { HasEachOnce span_status_words }
    ensures printed { (status : SpanStatuses) (text : List ℕ) →
        ⟦<SpanStatus as Display>⟧.output status ≡ Some text → span_status_of text ≡ Some status }
    ensures laws { HasLaws span_status_kind }
    ensures no_null { RefusesNull span_status_kind }
{}

/// Laws of session statuses.
pub fn session_statuses()
    ensures once { HasEachOnce session_status_words }
    ensures printed { (status : SessionStatuses) (text : List ℕ) →
        ⟦<SessionStatus as Display>⟧.output status ≡ Some text →
        session_status_of text ≡ Some status }
    ensures usual { (status : SessionStatuses) → ⟦<SessionStatus as Default>⟧.is_default status →
        status ≡ SessionStatus.Ok }
    ensures laws { HasLaws session_status_kind }
    ensures no_null { RefusesNull session_status_kind }
{}

/// Laws of log levels.
pub fn log_levels()
    ensures once { HasEachOnce log_level_words }
    ensures read_back { (level : LogLevels) → log_level_of (log_level_word level) ≡ Some level }
    ensures laws { HasLaws log_level_kind }
    ensures no_null { RefusesNull log_level_kind }
{}

/// Laws of metric types.
pub fn metric_types()
    ensures once { HasEachOnce metric_type_words }
    ensures read_back { (metric_type : MetricTypes) →
        metric_type_of (metric_type_word metric_type) ≡ Some metric_type }
    ensures laws { HasLaws metric_type_kind }
    ensures no_null { RefusesNull metric_type_kind }
{}

/// Laws of orientations.
pub fn orientations()
    ensures once { HasEachOnce orientation_words }
    ensures read_back { (orientation : Orientations) →
        orientation_of (orientation_word orientation) ≡ Some orientation }
    ensures laws { HasLaws orientation_kind }
    ensures no_null { RefusesNull orientation_kind }
{}

/// Laws of interval units.
pub fn monitor_interval_units()
    ensures once { HasEachOnce interval_unit_words }
    ensures read_back { (unit : MonitorIntervalUnits) →
        interval_unit_of (interval_unit_word unit) ≡ Some unit }
    ensures laws { HasLaws interval_unit_kind }
    ensures no_null { RefusesNull interval_unit_kind }
{}

/// Laws of check-in statuses.
pub fn monitor_check_in_statuses()
    ensures once { HasEachOnce check_in_status_words }
    ensures read_back { (status : MonitorCheckInStatuses) →
        check_in_status_of (check_in_status_word status) ≡ status }
    ensures laws { HasLaws check_in_status_kind }
    ensures no_null { RefusesNull check_in_status_kind }
{}

/// `==` of each enumeration is identity of variants.
pub fn equal_words()
    ensures levels { (a b : Levels) → ⟦<Level as PartialEq>⟧.eq a b ≡ true ↔ (a ≡ b) }
    ensures span_statuses { (a b : SpanStatuses) → ⟦<SpanStatus as PartialEq>⟧.eq a b ≡ true ↔
        (a ≡ b) }
    ensures session_statuses { (a b : SessionStatuses) →
        ⟦<SessionStatus as PartialEq>⟧.eq a b ≡ true ↔ (a ≡ b) }
    ensures log_levels { (a b : LogLevels) → ⟦<LogLevel as PartialEq>⟧.eq a b ≡ true ↔ (a ≡ b) }
    ensures metric_types { (a b : MetricTypes) → ⟦<MetricType as PartialEq>⟧.eq a b ≡ true ↔
        (a ≡ b) }
    ensures orientations { (a b : Orientations) → ⟦<Orientation as PartialEq>⟧.eq a b ≡ true ↔
        (a ≡ b) }
    ensures monitor_interval_units { (a b : MonitorIntervalUnits) →
        ⟦<MonitorIntervalUnit as PartialEq>⟧.eq a b ≡ true ↔ (a ≡ b) }
    ensures monitor_check_in_statuses { (a b : MonitorCheckInStatuses) →
        ⟦<MonitorCheckInStatus as PartialEq>⟧.eq a b ≡ true ↔ (a ≡ b) }
{}

/// The order of levels and of session statuses is the order of the variants.
pub fn ordered_words()
    ensures levels { (a b : Levels) →
        ⟦<Level as Ord>⟧.cmp a b ≡ nat_cmp (level_index a) (level_index b) }
    ensures session_statuses { (a b : SessionStatuses) →
        ⟦<SessionStatus as Ord>⟧.cmp a b ≡
        nat_cmp (session_status_index a) (session_status_index b) }
{}

/// Equal values hash alike: they make the same writes into any hasher. A law of std's `Hash`, which
/// each impl proves.
pub fn equal_values_hash_alike<T: Hash>()
    ensures { (a b : T) → T.eq a b ≡ true → T.hash_input a ≡ T.hash_input b }
{}

/// Each spelling of a unit is listed once.
#[tactic(auto, using(crate::proofs::UnitLaws::no_spelling_twice))]
pub fn no_spelling_stands_twice()
    ensures { IsDistinct bytes_eq (spellings units) }
{}

/// Reading and writing units round-trip; the normal form of `Other` with a known spelling is the
/// known unit.
#[tactic(auto, using(crate::proofs::UnitLaws::unit_back, crate::proofs::UnitLaws::symbol_read))]
pub fn units_read_back()
    ensures norm { (word : List ℕ) → norm unit_kind (other word) ≡ unit_of word }
    ensures again { (word : List ℕ) → unit_of (unit_text (unit_of word)) ≡ unit_of word }
    ensures symbol { norm unit_kind (other (codes "ms")) ≡ known (codes "millisecond") }
{}

/// Laws of units in JSON; each known unit is its own normal form.
pub fn unit_trees()
    ensures laws { HasLaws unit_kind }
    ensures no_null { RefusesNull unit_kind }
    ensures normal { (name : List ℕ) → found units name ≡ Some (known name) →
        IsNormal unit_kind (known name) }
{}

/// `==` of units is identity of variants and of `Other`'s text.
pub fn equal_units()
    ensures { (a b : Units) → ⟦<Unit as PartialEq>⟧.eq a b ≡ true ↔ (unit_cell a ≡ unit_cell b) }
{}
