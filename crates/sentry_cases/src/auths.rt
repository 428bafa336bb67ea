//! Authentications.

use crate::asked::said_of;
use crate::said::{as_tree, list, maybe, maybe_shown, shown, text};
use sentry_types::Auth;
use sentry_types::protocol::v7::{Member, Value};
use std::alloc::{AllocError, Global};

/// The text, the parts and the tree of an authentication.
pub fn said_auth(alloc: Global, auth: &Auth) -> Result<Value, AllocError> {
    list(
        alloc,
        [
            said_of(alloc, auth.clone(), shown),
            maybe_shown(alloc, auth.timestamp()),
            maybe(alloc, auth.client_agent()),
            as_tree(auth.version()),
            text(alloc, auth.public_key()),
            maybe(alloc, auth.secret_key()),
            as_tree(auth.is_public()),
            auth.to_tree(alloc),
        ],
    )
}
