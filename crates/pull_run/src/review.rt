// The subcommand `review`: the response to an admission review.
ghost use Rattle.std.specs.Prelude.{◌≡◌, IfOk, IfSome};
ghost use Rattle.pull_admit.specs.Input.{IsForReview, review_input_in};
ghost use Rattle.pull_admit.specs.ReviewResponses.{ReportsReview};

use crate::task::Task;
use json_tables::may_have_only;
use pull_admit::{ReviewInput, read_review_input, review_case};
use pulled_cases::Report;
use std::alloc::{AllocError, Global};

// The members of the input.
const NAMES: &[&str] = &["settings", "review"];

impl Task for ReviewInput {
    ghost reads = { review_input_in };

    ghost Valid = { IsForReview };

    ghost Gives = { ReportsReview };

    fn read(alloc: Global, bytes: &[u8]) -> Result<Option<ReviewInput>, AllocError>
        ensures exact { IfOk result (λ found. found ≡ review_input_in bytes.now) }
        ensures valid { IfOk result (λ found. IfSome found IsForReview) }
    {
        let may = may_have_only(alloc, bytes, NAMES)?;
        if !may {
            return Ok(None);
        }
        read_review_input(alloc, bytes)
    }

    fn make(self, alloc: Global) -> Result<Report, AllocError> {
        review_case(alloc, self)
    }
}
