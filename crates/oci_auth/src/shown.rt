// The `Debug` output of credentials, whatever the options of the formatter.
ghost use Rattle.std.specs.Prelude.{◌≡◌};
ghost use Rattle.std.specs.Fmt.{WritesStyledOnOk};
ghost use Rattle.oci_auth.specs.Shown.{shown_basic};

use std::fmt;
use std::fmt::Write;

// Writes to a formatter whose width, fill, precision and `#` have no effect.
#[derive(Drop)]
struct Plainly<'a, W> {
    formatter: &'a mut fmt::Formatter<W>,
}

impl<'a, W> Plainly<'a, W> {
    fn into_formatter(self) -> &'a mut fmt::Formatter<W>
        ensures { result ≡ self.entry.formatter }
    {
        self.formatter
    }
}

impl<'a, W: fmt::Write> fmt::Write for Plainly<'a, W> {
    ghost use Rattle.oci_auth.specs.Shown.{WritesPlainly};

    ghost write_str_gives = { λ old bytes new.
        WritesPlainly W.write_str_gives old.formatter.now bytes new.formatter.now
        × (new.formatter.ghost_name ≡ old.formatter.ghost_name) };

    fn write_str(&mut self, text: &str) -> fmt::Result {
        self.formatter.write_str(text)
    }
}

/// Writes `Basic` with the user's name in Rust's `Debug` form, omitted if non-ASCII, and without the password.
pub fn write_basic<W: fmt::Write>(f: &mut fmt::Formatter<W>, user: &str) -> fmt::Result
    ensures { WritesStyledOnOk W.write_str_gives f.old result (shown_basic user.now) f.new }
{
    if !user.is_ascii() {
        return f.write_str("Basic(\"<redacted>\", \"<redacted>\")");
    }
    let mut plainly = Plainly { formatter: f };
    let result = write!(plainly, "Basic({user:?}, \"<redacted>\")");
    // No effect at run time: the proof reads what was written from the reference that comes back.
    plainly.into_formatter();
    result
}
