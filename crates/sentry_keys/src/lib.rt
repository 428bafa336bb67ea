//! DSNs and client authentication of the Sentry protocol.
#![tactic(auto)]

mod api_url;
mod auth;
mod auth_laws;
mod dsn;
mod dsn_auth;
mod dsn_error;
mod dsn_organization;
mod dsn_path;
mod dsn_tree;
pub mod laws;
mod scheme;

pub use api_url::ApiUrlError;
pub use auth::{Auth, LATEST, ParseAuthError};
pub use dsn::Dsn;
pub use dsn_error::ParseDsnError;
pub use scheme::Scheme;
