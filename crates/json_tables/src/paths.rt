ghost use Rattle.std.specs.Prelude.{◌≡◌, map, option_map};
ghost use Rattle.serde_json.specs.View.{view};
ghost use Rattle.json_tables.specs.Paths.{text_at};

use serde_json::Value;

/// Returns the string at the end of a path of members.
pub fn text_at<'a>(value: &'a Value, names: &[&str]) -> Option<&'a str>
    ensures { option_map (λ text. text.now) result ≡ text_at (map (λ name. name.now) names.now) (view value.now) }
{
    let mut found = value;
    for name in names {
        found = found.get(*name)?;
    }
    found.as_str()
}
