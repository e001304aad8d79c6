//! The terms that all parts of the registry client share: its settings, a call, and why it is refused.
#![tactic(auto)]

mod call;
mod error;
mod settings;
mod token_body;

pub use call::Call;
pub use error::{GenericCause, OciDistributionError, SpecViolation};
pub use settings::{ClientProtocol, Settings};
pub use token_body::TokenBody;
