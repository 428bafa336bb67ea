//! Laws of the definitions that the contracts of this program cite.
ghost use Rattle.std.specs.Prelude.{◌≡◌, ℕ, Bool, List, Option};
ghost use Rattle.sentry_framing.specs.declared.kind.ItemKind.{ItemKind as Kind};
ghost use Rattle.sentry_env.specs.Args.{IsCall};
ghost use Rattle.sentry_env.specs.Run.{DueIsSettled};

/// Arguments have at most one meaning: they settle whether the header is kept, the path and the
/// item types.
pub fn calls_have_one_meaning()
    ensures { (words : List (List ℕ)) (keep_headers keep_headers' : Bool)
        (path path' : Option (List ℕ)) (kinds kinds' : List Kind)
        → IsCall words keep_headers path kinds → IsCall words keep_headers' path' kinds'
        → (keep_headers ≡ keep_headers') × (path ≡ path') × (kinds ≡ kinds') }
{}

/// A run over bytes in which no id is drawn has one outcome and one text for each writer: they
/// follow from the bytes, the moment, the item types and whether the header is kept.
pub fn runs_have_one_outcome()
    ensures { DueIsSettled }
{}
