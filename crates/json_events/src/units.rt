// The UTF-16 units of a name.
ghost use Rattle.std.specs.Prelude.{◌≡◌, ◌++◌, IfOk, OnOk};
ghost use Rattle.std.specs.Char.Escape.{encode_utf16};
ghost use Rattle.json_events.specs.Units.{units};

use json_values::List;
use std::alloc::{AllocError, Global};

pub(crate) fn units_of(alloc: Global, name: &str) -> Result<List<u16>, AllocError>
    ensures { IfOk result (λ us. us ≡ units name.now) }
{
    let mut units = List::new(alloc);
    for c in name.chars() {
        push_units(&mut units, c)?;
    }
    Ok(units)
}

fn push_units(units: &mut List<u16>, c: char) -> Result<(), AllocError>
    ensures { OnOk result (units.new ≡ units.old ++ encode_utf16 c) }
{
    let code = c as u32;
    if code < 0x1_0000 {
        units.push(code as u16)?;
        return Ok(());
    }
    let past = code - 0x1_0000;
    units.push((0xD800 + past / 0x400) as u16)?;
    units.push((0xDC00 + past % 0x400) as u16)?;
    Ok(())
}
