// The token of credentials that are passed in.
ghost use Rattle.std.specs.Prelude.{◌≡◌, None, IfOk};
ghost use Rattle.oci_auth.specs.Cache.{key_of};
ghost use Rattle.oci_protocol.specs.Runs.{Meets};
ghost use Rattle.engine_terms.specs.Contexts.{context_of};
ghost use Rattle.engine_terms.specs.Error.{is_memory};
ghost use Rattle.engine_rows.specs.Rows.{shown_text, kept_text, token_given};
ghost use Rattle.engine_steps.specs.BodyUnread.{LastBodyUnread};

use crate::tokens::token_step;
use engine_terms::{Call, OciDistributionError};
use json_values::Text;
use oci_auth::{AuthState, RegistryAuth, RegistryOperation, RegistryTokenType, store};
use oci_transport::Transport;
use std::alloc::{AllocError, Global};

fn shown_text(alloc: Global, token: &RegistryTokenType) -> Result<Option<Text>, AllocError>
    ensures { IfOk result (λ text. text ≡ shown_text token.now) }
{
    match token {
        RegistryTokenType::Bearer(token) => {
            let text = Text::new(alloc, token.token())?;
            Ok(Some(text))
        }
        RegistryTokenType::Basic(_, _) => Ok(None),
    }
}

/// Stores the credentials and the token that they give; returns its text if it is a realm's or was passed in.
#[tactic(none)]
pub fn token_given<T: Transport>(
    alloc: Global,
    transport: &mut T,
    memory: &mut AuthState,
    call: &Call,
    auth: &RegistryAuth,
    op: RegistryOperation,
) -> Result<Option<Text>, OciDistributionError>
    ensures run { Meets is_memory (token_given (context_of call.now) call.now.image.now auth.now op)
        (T.state transport.old) (T.state transport.new) memory.old memory.new result }
    ensures body_unread { IfOk result
        (λ text. text ≡ None → LastBodyUnread (T.state transport.old) (T.state transport.new)) }
{
    store(alloc, memory, call.image.resolve_registry(), auth)?;
    let Some(token) = token_step(alloc, transport, call, auth, op)? else {
        return Ok(None);
    };
    let text = shown_text(alloc, &token)?;
    memory.tokens.insert(call.image, op, token, call.moment)?;
    Ok(text)
}
