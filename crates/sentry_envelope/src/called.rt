//! Traits of closures that are called repeatedly with values of a type.

/// A closure `FnMut(&T) -> bool` that answers questions about values.
///
/// The argument's type is a parameter of the trait because the prover doesn't cover a call of a
/// closure whose argument contains `'static` strings.
pub trait Asked<T>: Drop {
    ghost use Rattle.std.specs.Prelude.{Bool};

    /// Holds for a closure that may be asked about any value.
    ghost can_ask: { Self → Type 0 };

    /// Relates a closure, a value, the answer about the value, and the closure after the call.
    ghost asks: { Self → T → Bool → Self → Type 0 };

    /// Returns the answer about a value.
    fn ask(&mut self, value: &T) -> bool
        requires { can_ask self.old }
        ensures { asks self.old value.now result self.new };

    /// A closure may be asked again after a call.
    ghost ask_again: { (first : Self) (value : T) (answer : Bool) (next : Self) → can_ask first →
        asks first value answer next → can_ask next };
}

impl<T, F: FnMut(&T) -> bool> Asked<T> for F {
    ghost use Rattle.std.specs.Prelude.{refl};
    ghost use Rattle.std.specs.Fn.{CalledAt};
    ghost use denote.Param.Always.{mut_next};

    ghost can_ask = { λ f. F.IsAlwaysCallable f };

    ghost asks = { λ f value answer next. CalledAt F.FnMut f value answer next };

    ghost ask_again = { λ first value answer next ready asked.
        mut_next F.FnMut first (asked.shown, tt) answer next next asked.called refl ready };

    fn ask(&mut self, value: &T) -> bool {
        self(value)
    }
}

/// A closure `FnMut(T)` that receives values.
pub trait Given<T>: Drop {
    /// Holds for a closure that may receive any value.
    ghost can_give: { Self → Type 0 };

    /// Relates a closure, a value, and the closure after it received the value.
    ghost gives: { Self → T → Self → Type 0 };

    /// Receives a value.
    fn give(&mut self, value: T)
        requires { can_give self.old }
        ensures { gives self.old value self.new };

    /// A closure may receive another value after a call.
    ghost give_again: { (first : Self) (value : T) (next : Self) → can_give first →
        gives first value next → can_give next };
}

impl<T, P: FnMut(T)> Given<T> for P {
    ghost use Rattle.std.specs.Prelude.{refl};
    ghost use denote.Param.Always.{mut_next};

    ghost can_give = { λ f. P.IsAlwaysCallable f };

    ghost gives = { λ f value next. P.step f value tt next };

    ghost give_again = { λ first value next ready given.
        mut_next P.FnMut first (value, tt) tt next next given refl ready };

    fn give(&mut self, value: T) {
        self(value)
    }
}
