// Whom a case trusts: valid signatures, vouched certificates, keys of logs.
ghost use Rattle.std.specs.Prelude.{◌≡◌, []};
ghost use Rattle.std.specs.FinMap.{empty};
ghost use Rattle.serde_json.specs.View.{view};
ghost use Rattle.json_tables.specs.Outcomes.{ReadsTo};
ghost use Rattle.recorded_case.specs.Trust.{judge_by, log_keys_of};

use crate::entries::{Entries, Entry, Usual};
use cosign_parts::{LogKeys, SignedRow, TableJudge, Vouched, VouchedRow};
use json_tables::{Member, ReadError, Reads, only, read_row};
use json_values::{List, TextMap, row};
use serde_json::Value;
use std::alloc::Global;

impl Entry for SignedRow {
    ghost use Rattle.recorded_case.specs.Trust.{signature_of};

    ghost entry = { signature_of };

    #[tactic(auto, unfolding(crate::specs::Trust::signature_of))]
    fn read_entry(alloc: Global, value: &Value) -> Result<SignedRow, ReadError> {
        only(value, &["key", "message", "signature"])?;
        let row![key, message, signature] = read_row::<SignedRow, _>(
            alloc,
            value,
            &["key", "message", "signature"],
        )?;
        Ok(SignedRow {
            key,
            message,
            signature,
        })
    }
}

const VOUCHED: &[&str] = &["certificate", "key", "email", "url", "issuer"];

impl Entry for VouchedRow {
    ghost use Rattle.recorded_case.specs.Trust.{vouched_of};

    ghost entry = { vouched_of };

    #[tactic(auto, unfolding(crate::specs::Trust::vouched_of))]
    fn read_entry(alloc: Global, value: &Value) -> Result<VouchedRow, ReadError> {
        only(value, VOUCHED)?;
        let row![certificate, key, email, url, issuer] = read_row::<VouchedRow, _>(
            alloc, value, VOUCHED,
        )?;
        Ok(VouchedRow {
            certificate,
            vouched: Vouched {
                key,
                email,
                url,
                issuer,
            },
        })
    }
}

impl Entry for TableJudge {
    ghost use Rattle.recorded_case.specs.Trust.{judge_of};

    ghost entry = { judge_of };

    #[tactic(auto, unfolding(crate::specs::Trust::judge_of))]
    fn read_entry(alloc: Global, value: &Value) -> Result<TableJudge, ReadError> {
        let rows: Entries<VouchedRow> = Member::read_member(alloc, Some(value))?;
        let Some(judge) = TableJudge::new(rows.list) else {
            return Err(ReadError::Shape);
        };
        Ok(judge)
    }
}

impl Usual for TableJudge {
    ghost usual = { judge_by [] };

    fn usual(alloc: Global) -> TableJudge {
        no_judge(alloc)
    }
}

// Vouches for nothing.
fn no_judge(alloc: Global) -> TableJudge
    ensures { result ≡ judge_by [] }
{
    match TableJudge::new(List::new(alloc)) {
        Some(judge) => judge,
        None => unreachable!(),
    }
}

impl Entry for LogKeys {
    ghost entry = { log_keys_of };

    fn read_entry(alloc: Global, value: &Value) -> Result<LogKeys, ReadError> {
        Reads::read_value(alloc, value)
    }
}

impl Usual for LogKeys {
    ghost usual = { empty };

    fn usual(alloc: Global) -> LogKeys {
        TextMap::new(alloc)
    }
}
