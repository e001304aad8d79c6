// Laws of bounds, as contracts of a function that does nothing.
ghost use Rattle.registry_cache.specs.Bounded.{KeepsAll, KeepsLongest};

/// Proves that without bounds nothing is evicted, and within bounds the longest suffix that fits remains.
pub fn kept_within_bounds()
    ensures unbounded { KeepsAll }
    ensures longest { KeepsLongest }
{}
