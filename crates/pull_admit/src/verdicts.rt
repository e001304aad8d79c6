//! A law of admission: the response over verdicts is the one over the decisions that they are of.
ghost use Rattle.pull_admit.specs.Verdicts.{ResponsesAgree};

/// The response to a review over the verdicts of decisions (`pod_reviews`) has, without a patch, the data of the
/// response over the decisions themselves (`pull_admit`).
pub fn responses_agree()
    ensures { ResponsesAgree }
{}
