// A member that is always written: `None` is written as null.
ghost use Rattle.std.specs.Prelude.{◌≡◌, Some, ⊤};

use json_tables::Field;
use json_values::ToValue;
use serde_json::{Map, Value, put};
use std::alloc::{AllocError, Global};

#[derive(Drop)]
pub(crate) struct Written<'a, T>(pub &'a T);

impl<'a, T: ToValue> Field for Written<'a, T> {
    ghost field = { λ member. Some (T.written member.0.now) };

    ghost Known = { λ _. ⊤ };

    fn put_in(
        &self,
        alloc: Global,
        members: &mut Map<String, Value>,
        name: &str,
    ) -> Result<(), AllocError> {
        let value = self.0.to_value(alloc)?;
        put(members, alloc, name, value)
    }
}
