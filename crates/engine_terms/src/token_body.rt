// The bytes that a realm responded with instead of a token.
use json_values::{Blob, Copied};
use std::alloc::{AllocError, Global};
use std::fmt::{self, InlineText, Write};
use std::marker::Model;

/// The body of a realm's response. It may hold a token, so `Debug` prints how many bytes it has, and none of them.
#[derive(Drop)]
pub struct TokenBody {
    bytes: Blob,
}

impl Model for TokenBody {
    ghost use Rattle.std.specs.Prelude.{ℕ, List};

    ghost Value = { List ℕ };

    ghost view = { λ b. b.bytes };
}

impl TokenBody {
    ghost use Rattle.std.specs.Prelude.{◌≡◌};

    /// Returns a body of these bytes.
    pub fn new(bytes: Blob) -> TokenBody
        ensures { result ≡ bytes }
    {
        TokenBody { bytes }
    }

    pub fn bytes(&self) -> &Blob
        ensures { result.now ≡ self.now }
    {
        &self.bytes
    }
}

impl Copied for TokenBody {
    fn copy(&self, alloc: Global) -> Result<TokenBody, AllocError> {
        let bytes = self.bytes.copy(alloc)?;
        Ok(TokenBody { bytes })
    }
}

impl fmt::Debug for TokenBody {
    ghost use Rattle.std.specs.Prelude.{Some};
    ghost use Rattle.std.specs.Fmt.{DisplaysOnOk, WritesStyledOnOk};
    ghost use Rattle.engine_terms.specs.Shown.{shown_body};

    ghost debug_output = { λ body. Some (shown_body body) };

    fn fmt<W: fmt::Write>(&self, f: &mut fmt::Formatter<W>) -> fmt::Result
        ensures writes { DisplaysOnOk W.write_str_gives f.old result (Some (shown_body self.now)) f.new }
        ensures styled { WritesStyledOnOk W.write_str_gives f.old result (shown_body self.now) f.new }
    {
        // Made apart from `f`, so that no width, fill or `#` reaches the number; 20 digits are the most.
        let mut shown = InlineText::<26>::new();
        write!(shown, "{} bytes", self.bytes.as_slice().len())?;
        f.write_str(shown.as_str())
    }
}
