//! Laws of client authentication: JSON trees, lists of pairs and header texts.
ghost use Rattle.std.specs.Prelude.{◌≡◌, ◌⊎◌, ◌↔◌, List};
ghost use Rattle.sentry_tables.specs.Cell.{Cell, absent};
ghost use Rattle.sentry_tables.specs.Laws.{HasLaws};
ghost use Rattle.sentry_tables.specs.Lawful.{RefusesNull};
ghost use Rattle.sentry_tables.specs.Norm.{norm};
ghost use Rattle.sentry_keys.specs.Auth.{Pair, Parts, IsAuth, HasUnreadableVersion, HasNoKey};
ghost use Rattle.sentry_keys.specs.AuthClean.{AreClean};
ghost use Rattle.sentry_keys.specs.AuthFields.{auth_kind, IsBeside};
ghost use Rattle.sentry_keys.specs.AuthText.{BeginsWithSentry, header_pairs, auth_text};

/// Client authentication in JSON: null is rejected, and the normal form has no timestamp.
pub fn auth_trees()
    ensures laws { HasLaws auth_kind }
    ensures null { RefusesNull auth_kind }
    ensures untimed { (c : Cell) → IsBeside (λ time rows. time ≡ absent) (norm auth_kind c) }
{}

/// Lists of pairs: each gives one authentication, or is rejected for one reason: an invalid version
/// or, with valid versions only, a public key that is absent or empty.
pub fn auths_of_pairs()
    ensures one { (pairs : List Pair) (a b : Parts) → IsAuth pairs a → IsAuth pairs b → a ≡ b }
    ensures one_refusal { (pairs : List Pair) → HasUnreadableVersion pairs → HasNoKey pairs → ⊥ }
    ensures apart { (pairs : List Pair) (a : Parts) → IsAuth pairs a →
        HasUnreadableVersion pairs ⊎ HasNoKey pairs → ⊥ }
    ensures decided { (pairs : List Pair) →
        ((a : Parts) × IsAuth pairs a) ⊎ (HasUnreadableVersion pairs ⊎ HasNoKey pairs) }
{}

/// Header texts: the printed text of an authentication gives the same parts, and no others, if the
/// version has 16 bits, the timestamp is that of a moment, the public key isn't empty, and each
/// text has no comma, no `=` and no surrounding white space.
pub fn auth_texts()
    ensures word { (a : Parts) → BeginsWithSentry (auth_text a) }
    ensures back { (a : Parts) → AreClean a → (b : Parts) → IsAuth (header_pairs (auth_text a)) b ↔
        (b ≡ a) }
{}
