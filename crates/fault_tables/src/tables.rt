// The results of the pulls, line by line.
ghost use Rattle.recorded_case.specs.Case.{IsReady};

use crate::pulls::{Pulled, Terms, pull_over};
use cosign_client::image_in;
use cosign_layers::PullPolicy;
use cosign_parts::TableVerifier;
use json_values::{Blob, Copied, List, write_decimal};
use oci_link::Shelf;
use pull_report::text_line;
use recorded_case::{Case, Registry, constraints_from};
use sig_registry::Auth;
use std::alloc::{AllocError, Global};

/// The maximum number of pieces that fail, one in each pull, before the table ends anyway.
const MOST_PIECES: u64 = 1000;

fn number_line(alloc: Global, out: &mut Blob, label: &str, number: u64) -> Result<(), AllocError> {
    let digits = write_decimal(alloc, number)?;
    text_line(out, label, digits.as_str())
}

fn write_pulled(alloc: Global, out: &mut Blob, pulled: &Pulled) -> Result<(), AllocError> {
    number_line(alloc, out, "requests", pulled.requests)?;
    out.append(pulled.lines.as_slice())
}

fn one(alloc: Global, number: u64) -> Result<List<u64>, AllocError> {
    let mut numbers = List::new(alloc);
    numbers.push(number)?;
    Ok(numbers)
}

// A pull for each send that fails, for as many sends as a pull without faults makes.
fn write_sends(alloc: Global, out: &mut Blob, terms: &Terms<'_>) -> Result<(), AllocError> {
    let Some(whole) = pull_over(alloc, terms, List::new(alloc), List::new(alloc))? else {
        return Ok(());
    };
    write_pulled(alloc, out, &whole)?;
    for number in 0..whole.requests {
        let sends = one(alloc, number)?;
        let Some(pulled) = pull_over(alloc, terms, sends, List::new(alloc))? else {
            return Ok(());
        };
        number_line(alloc, out, "send", number)?;
        write_pulled(alloc, out, &pulled)?;
    }
    Ok(())
}

// A pull for each piece that fails, until in one no fault occurs.
fn write_pieces(alloc: Global, out: &mut Blob, terms: &Terms<'_>) -> Result<(), AllocError> {
    for number in 0..MOST_PIECES {
        let pieces = one(alloc, number)?;
        let Some(pulled) = pull_over(alloc, terms, List::new(alloc), pieces)? else {
            return Ok(());
        };
        number_line(alloc, out, "piece", number)?;
        write_pulled(alloc, out, &pulled)?;
        if pulled.faults == 0 {
            return Ok(());
        }
    }
    Ok(())
}

fn tables_over(alloc: Global, terms: &Terms<'_>) -> Result<Blob, AllocError> {
    let mut out = Blob::empty(alloc);
    write_sends(alloc, &mut out, terms)?;
    write_pieces(alloc, &mut out, terms)?;
    Ok(out)
}

fn tables_of(alloc: Global, case: &Case, shelf: &Shelf) -> Result<Blob, AllocError>
    requires { IsReady case.now }
{
    let image = image_in(alloc, case.reference.as_str())?;
    let auth = Auth::from_registry(alloc, &case.auth)?;
    let verifier = TableVerifier {
        rows: case.signatures.copy(alloc)?,
    };
    let policy = PullPolicy {
        keys: case.keys.copy(alloc)?,
        constraints: constraints_from(alloc, case.constraints.as_slice())?,
    };
    let terms = Terms {
        case,
        shelf,
        image,
        auth,
        policy,
        verifier,
    };
    tables_over(alloc, &terms)
}

/// Returns both tables for the case's first moment, or `None` if the case's registry is not a shelf.
pub fn write_tables(alloc: Global, case: &Case) -> Result<Option<Blob>, AllocError>
    requires { IsReady case.now }
{
    match &case.registry {
        Registry::Shelf(shelf) => Ok(Some(tables_of(alloc, case, shelf)?)),
        Registry::Answers(_) => Ok(None),
    }
}
