// Why an index was not copied whole.
use cosign_rows::PullRefusal;
use engine_terms::OciDistributionError;
use json_values::Text;
use pull_mirror::DocumentsRefusal;
use std::alloc::AllocError;
use thiserror::Error;

/// Why an index was not copied whole. Unless it is `Index` or memory ran out, the index was not pushed.
#[derive(Debug, Drop, Error)]
pub enum IndexRefusal {
    /// The document that was signed is not an index, or is not that of the reference. No request was sent.
    #[error("the signed document is not the index: copy the image alone")]
    NotIndex,
    /// The image of this entry was not pulled. Those before it were pushed.
    #[error("an image of the index was not pulled: read the error of the pull")]
    Pull {
        entry: Text,
        refusal: PullRefusal,
    },
    /// The index that the source gave for this entry led to another manifest. Those before it were pushed.
    #[error("an image of the index has another digest: do not use it, and tell the registry's operator")]
    Other {
        entry: Text,
    },
    /// The image of this entry was pulled, and its push of this digest was refused.
    #[error("an image of the index was not pushed: read the error of the registry's client")]
    Push {
        entry: Text,
        digest: Text,
        error: OciDistributionError,
    },
    /// All images were pushed, and the index was not.
    #[error("the index was not pushed: read the error of the push")]
    Index(DocumentsRefusal),
    /// The allocator had no memory.
    #[error("out of memory: free some and try again")]
    WantOfMemory,
}

impl From<AllocError> for IndexRefusal {
    ghost use Rattle.std.specs.Prelude.{◌≡◌};
    ghost use Rattle.index_mirrors.specs.declared.refusals.IndexRefusal.TheVariants.{WantOfMemory};

    ghost from_gives = { λ _ e. e ≡ WantOfMemory };

    fn from(_: AllocError) -> Self {
        IndexRefusal::WantOfMemory
    }
}
