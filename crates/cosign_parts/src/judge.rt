//! Judges of certificates.
ghost use Rattle.std.specs.Prelude.{◌≡◌, true, false, option_map, IfOk, MatchOption, Option};
ghost use Rattle.std.specs.List.{list_any, find};
ghost use Rattle.cosign_parts.specs.Judge.{has_two_equal, is_for, vouched_in};
ghost use Rattle.cosign_parts.specs.declared.certificate.Evidence.{Evidence};
ghost use Rattle.cosign_parts.specs.declared.certificate.Vouched.{Vouched};

use crate::certificate::{Evidence, Vouched};
use json_values::{Blob, Copied, List, copied};
use std::alloc::{AllocError, Global};

/// Judges certificates without sending a request.
pub trait Offline {
    /// What it vouches for on this evidence.
    ghost vouched: { Self → Evidence → Option Vouched };

    fn judge(&self, alloc: Global, evidence: &Evidence) -> Result<Option<Vouched>, AllocError>
        ensures { IfOk result (λ found. found ≡ vouched self.now evidence.now) };
}

/// Vouches for no certificate.
#[derive(Clone, Copy, Debug, Default, PartialEq, Eq)]
pub struct NoCertificates;

impl Offline for NoCertificates {
    ghost use Rattle.std.specs.Prelude.{None};

    ghost vouched = { λ judge evidence. None };

    fn judge(&self, _alloc: Global, _evidence: &Evidence) -> Result<Option<Vouched>, AllocError> {
        Ok(None)
    }
}

/// What is vouched for one certificate.
#[derive(Drop)]
pub struct VouchedRow {
    pub certificate: Blob,
    pub vouched: Vouched,
}

/// Vouches for the certificates of its rows, at any time, and for no others.
#[derive(Drop)]
pub struct TableJudge {
    rows: List<VouchedRow>,
}

impl TableJudge {
    /// Returns a judge with these rows, or `None` if and only if two rows have the same certificate.
    pub fn new(rows: List<VouchedRow>) -> Option<TableJudge>
        ensures { MatchOption result (has_two_equal rows ≡ true)
            (λ table. (table.rows ≡ rows) × (has_two_equal rows ≡ false)) }
    {
        if has_two_equal(rows.as_slice()) {
            return None;
        }
        Some(TableJudge { rows })
    }
}

impl Offline for TableJudge {
    ghost vouched = { vouched_in };

    fn judge(&self, alloc: Global, evidence: &Evidence) -> Result<Option<Vouched>, AllocError> {
        let rows = self.rows.as_slice();
        let Some(row) = rows.iter().find(|row| is_for(row, &evidence.certificate)) else {
            return Ok(None);
        };
        let vouched = row.vouched.copy(alloc)?;
        Ok(Some(vouched))
    }
}

// Whether two rows have the same certificate.
fn has_two_equal(rows: &[VouchedRow]) -> bool
    ensures { result ≡ has_two_equal rows.now }
{
    let mut rest = rows;
    while let Some((row, others)) = rest.split_first() {
        if has_row_for(others, &row.certificate) {
            return true;
        }
        rest = others;
    }
    false
}

fn has_row_for(rows: &[VouchedRow], certificate: &Blob) -> bool
    ensures { result ≡ list_any (is_for certificate.now) rows.now }
{
    rows.iter().any(|row| is_for(row, certificate))
}

fn is_for(row: &VouchedRow, certificate: &Blob) -> bool
    ensures { result ≡ is_for certificate.now row.now }
{
    row.certificate.as_slice() == certificate.as_slice()
}

impl Copied for VouchedRow {
    fn copy(&self, alloc: Global) -> Result<VouchedRow, AllocError> {
        copied!(
            alloc,
            self,
            VouchedRow {
                certificate,
                vouched
            }
        )
    }
}

impl Copied for TableJudge {
    fn copy(&self, alloc: Global) -> Result<TableJudge, AllocError> {
        Ok(TableJudge {
            rows: self.rows.copy(alloc)?,
        })
    }
}
