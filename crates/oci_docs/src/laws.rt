// Laws of offsets, as contracts of functions without effect.
ghost use Rattle.oci_docs.specs.Instant.{MovesMinutes, NoTimeOutside};

/// An offset changes the number of minutes by its own, and yields no time if and only if it leaves the years 0000
/// to 9999.
pub fn offsets_move_minutes()
    ensures moves { MovesMinutes }
    ensures range { NoTimeOutside }
{}
