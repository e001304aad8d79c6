//! The requests and responses of Rekor.

pub use service_models::{
    Alpine, AlpineAllOf, EntryAllOf, Error, Format, Hashedrekord, HashedrekordAllOf, Helm,
    HelmAllOf, InactiveShardLogInfo, Intoto, IntotoAllOf, Jar, JarAllOf, LogEntry, ModelError,
    ProposedEntry, Rekord, RekordAllOf, Rfc3161, Rfc3161AllOf, Rpm, RpmAllOf, SearchIndex,
    SearchIndexPublicKey, SearchLogQuery, Tuf, TufAllOf,
};
