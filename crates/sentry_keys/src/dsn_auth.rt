//! Client authentication from a DSN.

ghost use Rattle.std.specs.Prelude.{◌≡◌, IfOk, option_copied};

use crate::auth::{Auth, LATEST};
use crate::dsn::{Dsn, copy_text};
use sentry_moments::Moment;
use std::alloc::{AllocError, Global};

impl Dsn {
    ghost use Rattle.sentry_keys.specs.Auth.{parts_of};
    ghost use Rattle.sentry_keys.specs.Dsn.{dsn_parts};
    ghost use Rattle.sentry_keys.specs.DsnAuth.{auth_of};

    /// Returns the authentication of a client: the DSN's keys, version [`LATEST`], the timestamp
    /// `now`, and the client's name and version, if given.
    ///
    /// # Errors
    ///
    /// `AllocError` if an allocation fails.
    pub fn to_auth(
        &self,
        alloc: Global,
        now: Moment,
        client_agent: Option<&str>,
    ) -> Result<Auth, AllocError>
        ensures { IfOk result (λ auth.
            parts_of auth ≡ auth_of (dsn_parts self.now) now (option_copied client_agent.entry)) }
    {
        Ok(Auth {
            timestamp: Some(now),
            client: copy_text(alloc, client_agent)?,
            version: LATEST,
            key: String::from_str(alloc, self.public_key())?,
            secret: copy_text(alloc, self.secret_key())?,
        })
    }
}
