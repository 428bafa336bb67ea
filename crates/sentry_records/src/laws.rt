//! Laws of the definitions: a written value reads back as its normal form only; the normal form is
//! its own normal form, and two values share one exactly if their normal forms are written alike.

ghost use Rattle.std.specs.Prelude.{◌≡◌, ◌↔◌, true};
ghost use Rattle.sentry_tables.specs.Laws.{HasLaws};
ghost use Rattle.sentry_tables.specs.Lawful.{RefusesNull};
ghost use Rattle.sentry_records.specs.LogAttribute.{attribute_kind};
ghost use Rattle.sentry_records.specs.Logs.{log_kind};
ghost use Rattle.sentry_records.specs.Metrics.{metric_kind};
ghost use Rattle.sentry_records.specs.Monitors.{schedule_cell, schedule_kind, config_cell, config_kind, check_in_cell, check_in_kind};
ghost use Rattle.sentry_records.specs.Sampling.{sampling_cell, sampling_kind};
ghost use Rattle.sentry_records.specs.Sessions.{IsStoredAddress, attributes_cell, attributes_kind, session_cell, session_kind, group_cell, group_kind, groups_cell, groups_kind};
ghost use Rattle.sentry_records.specs.UserReports.{user_report_cell, user_report_kind};
ghost use Rattle.sentry_records.specs.declared.monitor_check_in.MonitorCheckIn.{MonitorCheckIn as CheckIns};
ghost use Rattle.sentry_records.specs.declared.monitor_config.MonitorConfig.{MonitorConfig as Configs};
ghost use Rattle.sentry_records.specs.declared.monitor_schedule.MonitorSchedule.{MonitorSchedule as Schedules};
ghost use Rattle.sentry_records.specs.declared.sampling.DynamicSamplingContext.{DynamicSamplingContext as Contexts};
ghost use Rattle.sentry_records.specs.declared.session_aggregate_item.SessionAggregateItem.{SessionAggregateItem as Groups};
ghost use Rattle.sentry_records.specs.declared.session_aggregates.SessionAggregates.{SessionAggregates as Aggregates};
ghost use Rattle.sentry_records.specs.declared.session_attributes.SessionAttributes.{SessionAttributes as Attributes};
ghost use Rattle.sentry_records.specs.declared.session_update.SessionUpdate.{SessionUpdate as Updates};
ghost use Rattle.sentry_records.specs.declared.user_report.UserReport.{UserReport as Reports};

use crate::{
    DynamicSamplingContext, MonitorCheckIn, MonitorConfig, MonitorSchedule, SessionAggregateItem,
    SessionAggregates, SessionAttributes, SessionUpdate, UserReport,
};

/// The laws hold of each table, and of monitor schedules, which are read by their `type`.
#[tactic(auto, using(crate::proofs::TableLaws::sampling_laws, crate::proofs::TableLaws::attributes_laws, crate::proofs::TableLaws::session_laws, crate::proofs::TableLaws::group_laws, crate::proofs::TableLaws::groups_laws, crate::proofs::TableLaws::schedule_laws, crate::proofs::TableLaws::config_laws, crate::proofs::TableLaws::check_in_laws, crate::proofs::TableLaws::user_report_laws, crate::proofs::TableLaws::log_laws, crate::proofs::TableLaws::metric_laws))]
pub fn tables()
    ensures sampling_contexts { HasLaws sampling_kind }
    ensures session_attributes { HasLaws attributes_kind }
    ensures sessions { HasLaws session_kind }
    ensures groups_of_sessions { HasLaws group_kind }
    ensures counted_sessions { HasLaws groups_kind }
    ensures schedules { HasLaws schedule_kind }
    ensures configurations { HasLaws config_kind }
    ensures check_ins { HasLaws check_in_kind }
    ensures reports { HasLaws user_report_kind }
    ensures logs { HasLaws log_kind }
    ensures metrics { HasLaws metric_kind }
{}

/// The laws hold of the attributes of logs and metrics; null is rejected.
#[tactic(auto, using(crate::proofs::Attributes::attribute_has_laws, crate::proofs::Attributes::attribute_refuses_null))]
pub fn attributes()
    ensures laws { HasLaws attribute_kind }
    ensures no_null { RefusesNull attribute_kind }
{}

/// `==` compares contents: two values of a type below are equal exactly if all fields are the same.
///
/// The laws of sessions assume that IP addresses have numbers in range, as every address of a
/// program has.
#[tactic(auto, using(crate::proofs::Equal::contexts_decide, crate::proofs::Equal::groups_decide, crate::proofs::Equal::schedules_decide, crate::proofs::Equal::configs_decide, crate::proofs::Equal::check_ins_decide, crate::proofs::Equal::reports_decide, crate::proofs::SessionsEqual::attributes_decide, crate::proofs::SessionsEqual::sessions_decide, crate::proofs::SessionsEqual::aggregates_decide))]
pub fn equal_tables()
    ensures sampling_contexts { (a b : Contexts) →
        ⟦<DynamicSamplingContext as PartialEq>⟧.eq a b ≡ true ↔
        (sampling_cell a ≡ sampling_cell b) }
    ensures groups_of_sessions { (a b : Groups) →
        ⟦<SessionAggregateItem as PartialEq>⟧.eq a b ≡ true ↔ (group_cell a ≡ group_cell b) }
    ensures session_attributes { (a b : Attributes) → IsStoredAddress a → IsStoredAddress b
        → ⟦<SessionAttributes<'static> as PartialEq>⟧.eq a b ≡ true ↔
        (attributes_cell a ≡ attributes_cell b) }
    ensures sessions { (a b : Updates) → IsStoredAddress a.attributes → IsStoredAddress b.attributes
        → ⟦<SessionUpdate<'static> as PartialEq>⟧.eq a b ≡ true ↔
        (session_cell a ≡ session_cell b) }
    ensures counted_sessions { (a b : Aggregates) → IsStoredAddress a.attributes →
        IsStoredAddress b.attributes
        → ⟦<SessionAggregates<'static> as PartialEq>⟧.eq a b ≡ true ↔
        (groups_cell a ≡ groups_cell b) }
    ensures schedules { (a b : Schedules) → ⟦<MonitorSchedule as PartialEq>⟧.eq a b ≡ true ↔
        (schedule_cell a ≡ schedule_cell b) }
    ensures configurations { (a b : Configs) → ⟦<MonitorConfig as PartialEq>⟧.eq a b ≡ true ↔
        (config_cell a ≡ config_cell b) }
    ensures check_ins { (a b : CheckIns) → ⟦<MonitorCheckIn as PartialEq>⟧.eq a b ≡ true ↔
        (check_in_cell a ≡ check_in_cell b) }
    ensures reports { (a b : Reports) → ⟦<UserReport as PartialEq>⟧.eq a b ≡ true ↔
        (user_report_cell a ≡ user_report_cell b) }
{}
