//! Laws of the definitions: a written value reads back as its normal form only; the normal form is
//! its own normal form, and two values share one exactly if their normal forms are written alike.

ghost use Rattle.std.specs.Prelude.{◌≡◌, ◌↔◌, ◌<◌, ◌^◌, ℕ, true, String, string_bytes};
ghost use Rattle.std.specs.declared.alloc.Global.{Global};
ghost use Rattle.std.specs.Cmp.Lexicographic.{slice_cmp};
ghost use Rattle.std.specs.Ordering.{nat_cmp};
ghost use Rattle.std.specs.declared.cmp.Ordering.TheVariants.{Less, Greater};
ghost use Rattle.sentry_tables.specs.Cell.{Cell};
ghost use Rattle.sentry_tables.specs.Kind.{values};
ghost use Rattle.sentry_tables.specs.Laws.{HasLaws};
ghost use Rattle.sentry_tables.specs.Lawful.{IsNormal, RefusesNull};
ghost use Rattle.sentry_tables.specs.Kinds.{unsigned_kind};
ghost use Rattle.sentry_frames.specs.Causes.{c_error_cell, c_error_kind, mach_cell, mach_kind, signal_cell, signal_kind};
ghost use Rattle.sentry_frames.specs.Exceptions.{exception_kind};
ghost use Rattle.sentry_frames.specs.Frames.{frame_kind, stacktrace_kind, template_cell, template_kind};
ghost use Rattle.sentry_frames.specs.LogEntries.{entry_kind};
ghost use Rattle.sentry_frames.specs.Mechanisms.{mechanism_kind, mechanism_meta_cell, mechanism_meta_kind};
ghost use Rattle.sentry_frames.specs.ThreadIds.{IsThreadId, thread_id_cell, thread_id_kind};
ghost use Rattle.sentry_frames.specs.Threads.{thread_kind};
ghost use Rattle.sentry_frames.specs.declared.c_error.CError.{CError as CErrors};
ghost use Rattle.sentry_frames.specs.declared.mach_exception.MachException.{MachException as MachExceptions};
ghost use Rattle.sentry_frames.specs.declared.mechanism_meta.MechanismMeta.{MechanismMeta as Metas};
ghost use Rattle.sentry_frames.specs.declared.posix_signal.PosixSignal.{PosixSignal as PosixSignals};
ghost use Rattle.sentry_frames.specs.declared.template_info.TemplateInfo.{TemplateInfo as Templates};
ghost use Rattle.sentry_frames.specs.declared.thread_id.ThreadId.{ThreadId as Ids};
ghost use Rattle.sentry_frames.specs.declared.thread_id.ThreadId.TheVariants.{Int, String as Text};

use crate::{CError, MachException, MechanismMeta, PosixSignal, TemplateInfo, ThreadId};

/// The laws of JSON forms (`HasLaws`) hold of each type that is a JSON object.
#[tactic(auto, using(crate::proofs::TableLaws::entry_laws, crate::proofs::TableLaws::frame_laws, crate::proofs::TableLaws::template_laws, crate::proofs::TableLaws::stacktrace_laws, crate::proofs::TableLaws::thread_laws, crate::proofs::TableLaws::c_error_laws, crate::proofs::TableLaws::mach_laws, crate::proofs::TableLaws::signal_laws, crate::proofs::TableLaws::mechanism_meta_laws, crate::proofs::TableLaws::mechanism_laws, crate::proofs::TableLaws::exception_laws))]
pub fn tables()
    ensures messages { HasLaws entry_kind }
    ensures frames { HasLaws frame_kind }
    ensures templates { HasLaws template_kind }
    ensures stack_traces { HasLaws stacktrace_kind }
    ensures threads { HasLaws thread_kind }
    ensures c_errors { HasLaws c_error_kind }
    ensures mach_exceptions { HasLaws mach_kind }
    ensures signals { HasLaws signal_kind }
    ensures causes { HasLaws mechanism_meta_kind }
    ensures mechanisms { HasLaws mechanism_kind }
    ensures exceptions { HasLaws exception_kind }
{}

/// The laws of JSON forms hold of lists of exceptions, threads and numbers under the key `values`.
#[tactic(auto, using(crate::proofs::TableLaws::exception_lists, crate::proofs::TableLaws::thread_lists, crate::proofs::TableLaws::number_lists))]
pub fn lists()
    ensures exceptions { HasLaws (values exception_kind) }
    ensures threads { HasLaws (values thread_kind) }
    ensures numbers { HasLaws (values (unsigned_kind (2 ^ 64))) }
{}

/// The laws of JSON forms hold of thread ids; null is rejected, and each id is its own normal form.
#[tactic(auto, using(crate::proofs::TableLaws::thread_id_laws, crate::proofs::ThreadIds::thread_id_refuses_null, crate::proofs::ThreadIds::thread_id_normal))]
pub fn thread_id_trees()
    ensures laws { HasLaws thread_id_kind }
    ensures no_null { RefusesNull thread_id_kind }
    ensures normal { (c : Cell) → IsThreadId c → IsNormal thread_id_kind c }
{}

/// `==` compares contents: two values of a type below are equal exactly if all fields are the same.
#[tactic(auto, using(crate::proofs::Equal::thread_ids_decide, crate::proofs::Equal::templates_decide, crate::proofs::Equal::c_errors_decide, crate::proofs::Equal::mach_exceptions_decide, crate::proofs::Equal::signals_decide, crate::proofs::Equal::metas_decide))]
pub fn equal_tables()
    ensures thread_ids { (a b : Ids) → ⟦<ThreadId as PartialEq>⟧.eq a b ≡ true ↔
        (thread_id_cell a ≡ thread_id_cell b) }
    ensures templates { (a b : Templates) → ⟦<TemplateInfo as PartialEq>⟧.eq a b ≡ true ↔
        (template_cell a ≡ template_cell b) }
    ensures c_errors { (a b : CErrors) → ⟦<CError as PartialEq>⟧.eq a b ≡ true ↔
        (c_error_cell a ≡ c_error_cell b) }
    ensures mach_exceptions { (a b : MachExceptions) →
        ⟦<MachException as PartialEq>⟧.eq a b ≡ true ↔ (mach_cell a ≡ mach_cell b) }
    ensures signals { (a b : PosixSignals) → ⟦<PosixSignal as PartialEq>⟧.eq a b ≡ true ↔
        (signal_cell a ≡ signal_cell b) }
    ensures causes { (a b : Metas) → ⟦<MechanismMeta as PartialEq>⟧.eq a b ≡ true ↔
        (mechanism_meta_cell a ≡ mechanism_meta_cell b) }
{}

/// `cmp` orders numbers before strings, numbers by value and strings by bytes.
pub fn ordered_thread_ids()
    ensures numbers { (m n : ℕ) → ⟦<ThreadId as Ord>⟧.cmp (Int m) (Int n) ≡ nat_cmp m n }
    ensures numbers_first { (n : ℕ) (s : String Global) →
        ⟦<ThreadId as Ord>⟧.cmp (Int n) (Text s) ≡ Less }
    ensures texts_last { (n : ℕ) (s : String Global) →
        ⟦<ThreadId as Ord>⟧.cmp (Text s) (Int n) ≡ Greater }
    ensures texts { (s t : String Global) →
        ⟦<ThreadId as Ord>⟧.cmp (Text s) (Text t) ≡
        slice_cmp nat_cmp (string_bytes s) (string_bytes t) }
{}

/// The default thread id is the number 0.
pub fn default_thread_ids()
    ensures { (a : Ids) → ⟦<ThreadId as Default>⟧.is_default a → a ≡ Int 0 }
{}
