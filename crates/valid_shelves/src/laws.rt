// Laws of shelves, as contracts of functions that do nothing.
ghost use Rattle.valid_shelves.specs.Laws.{
  ReferredShelvesAreWide,
  SmallShelvesAreValid,
  ValidShelvesAreWide,
};

use cosign_layers::PullPolicy;

/// Proves that under this policy each `ValidShelf` is a `WideShelf`.
pub fn valid_shelves_are_wide(policy: &PullPolicy)
    ensures { ValidShelvesAreWide policy.now }
{}

/// Proves that the shelf of an image of one layer, with a signature under the tag of its digest, is a `ValidShelf`
/// under this policy.
pub fn small_shelves_are_valid(policy: &PullPolicy)
    ensures { SmallShelvesAreValid policy.now }
{}

/// Proves that the shelf of an image of one layer, with a bundle among the referrers of its digest, is a `WideShelf`
/// under this policy: for a digest of each algorithm, and for an image that its tag names directly or by an index.
pub fn referred_shelves_are_wide(policy: &PullPolicy)
    ensures { ReferredShelvesAreWide policy.now }
{}
