//! Credentials of registries, the tokens that realms issue for them, both as a client holds them between calls, and the
//! challenges in a `www-authenticate` header.
#![tactic(auto)]

mod auth;
mod auth_state;
mod bearer;
mod cache;
mod challenge;
mod element;
mod expiration;
mod grammar;
mod kept;
mod shown;
mod split;
mod token;
mod token_type;

pub use auth::RegistryAuth;
pub use auth_state::{AuthState, store};
pub use bearer::{BearerChallenge, ChallengeError};
pub use cache::TokenCache;
pub use challenge::{Challenge, challenges};
pub use expiration::bearer_token_cache_expiration;
pub use shown::write_basic;
pub use token::{RegistryToken, TokenError};
pub use token_type::{RegistryOperation, RegistryTokenType};
