// A rule: the images that it covers, and what holds for them.

use json_tables::{ReadError, Reads, only, required};
use json_values::Text;
use serde_json::Value;
use std::alloc::Global;

/// A rule: an object with the members `images` and `settings`.
#[derive(Drop)]
pub struct Rule<T> {
    /// A registry, or a registry and a path: the rule covers the repository of this name, and those that continue it
    /// after a `/`.
    pub images: Text,
    /// What holds for these images.
    pub settings: T,
}

impl<T: Reads + Drop> Reads for Rule<T> {
    ghost use Rattle.live_admit.specs.Rules.{rule_of};

    ghost reading = { rule_of T.reading };

    #[tactic(auto, unfolding(crate::specs::Rules::rule_of))]
    fn read_value(alloc: Global, value: &Value) -> Result<Rule<T>, ReadError> {
        only(value, &["images", "settings"])?;
        let images: Text = required(alloc, value, "images")?;
        let settings: T = required(alloc, value, "settings")?;
        Ok(Rule { images, settings })
    }
}
