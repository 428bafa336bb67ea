//! Lookup of a key in a list of keys.

ghost use Rattle.std.specs.Prelude.{◌≡◌, IfSome, IfNone, false, map};
ghost use Rattle.std.specs.Str.{bytes_eq};
ghost use Rattle.sentry_json.specs.Keys.{is_among as among, StandsAt};

// Returns whether two keys are equal. Most that differ have another length, which is asked first.
#[inline(always)]
#[tactic(auto, using(crate::proofs::Beside::apart))]
pub(crate) fn is_same(key: &str, other: &str) -> bool
    ensures { result ≡ bytes_eq key.now other.now }
{
    key.len() == other.len() && key == other
}

/// Returns the index of a key in `keys`; `None` if absent.
#[inline(always)]
pub fn place(keys: &[&str], key: &str) -> Option<usize>
    ensures found { IfSome result (λ i. StandsAt key.now i (map (λ k. k.now) keys.now)) }
    ensures none { IfNone result (among key.now (map (λ k. k.now) keys.now) ≡ false) }
{
    for i in 0..keys.len() {
        if is_same(key, keys[i]) {
            return Some(i);
        }
    }
    None
}

/// Returns whether a key is one of `names`.
pub fn is_among(names: &[&str], key: &str) -> bool
    ensures { result ≡ among key.now (map (λ name. name.now) names.now) }
{
    place(names, key).is_some()
}
