// A registry in memory, as written in a case.
ghost use Rattle.serde_json.specs.View.{view};
ghost use Rattle.json_tables.specs.Outcomes.{ReadsTo};
ghost use Rattle.recorded_case.specs.Shelf.{maps_of, shelf_of};

use crate::entries::{Entry, EntryMap, OrUsual, Usual};
use json_tables::{ReadError, Reads, only, read_row};
use json_values::{Annotations, Text, TextMap, row};
use oci_link::{Shelf, ShelfBlobs, ShelfDocument};
use serde_json::Value;
use std::alloc::Global;

impl Entry for ShelfDocument {
    ghost use Rattle.recorded_case.specs.Shelf.{document_of};

    ghost entry = { document_of };

    #[tactic(auto, unfolding(crate::specs::Shelf::document_of))]
    fn read_entry(alloc: Global, value: &Value) -> Result<ShelfDocument, ReadError> {
        only(value, &["media_type", "content"])?;
        let row![media_type, content] = read_row::<ShelfDocument, _>(
            alloc,
            value,
            &["media_type", "content"],
        )?;
        Ok(ShelfDocument {
            media_type,
            content,
        })
    }
}

impl Entry for Annotations {
    ghost use Rattle.json_tables.specs.Reading.{map_of, text_of};

    ghost entry = { map_of text_of };

    fn read_entry(alloc: Global, value: &Value) -> Result<Annotations, ReadError> {
        Reads::read_value(alloc, value)
    }
}

impl Usual for Annotations {
    ghost use Rattle.std.specs.FinMap.{empty};

    ghost usual = { empty };

    fn usual(alloc: Global) -> Annotations {
        TextMap::new(alloc)
    }
}

const NAMES: &[&str] = &[
    "repository",
    "tags",
    "documents",
    "blobs",
    "referrers",
    "redirects",
];

// The members from each one on, in the order of `NAMES`.
type Redirects = (OrUsual<Annotations>, ());

type Referrers = (ShelfBlobs, Redirects);

type Blobs = (ShelfBlobs, Referrers);

type Documents = (EntryMap<ShelfDocument>, Blobs);

type Tags = (Annotations, Documents);

type Members = (Text, Tags);

// The maps of a shelf, whether its redirects end or not.
#[tactic(auto, unfolding(crate::specs::Shelf::maps_of))]
fn read_maps(alloc: Global, value: &Value) -> Result<Shelf, ReadError>
    ensures { ReadsTo result (maps_of (view value.now)) }
{
    only(value, NAMES)?;
    let row![repository, tags, documents, blobs, referrers, redirects]: Members = read_row::<
        Shelf,
        _,
    >(alloc, value, NAMES)?;
    Ok(Shelf {
        repository,
        tags,
        documents: documents.map,
        blobs,
        referrers,
        redirects: redirects.value,
    })
}

/// Reads a shelf whose redirects all end.
pub fn read_shelf(alloc: Global, value: &Value) -> Result<Shelf, ReadError>
    ensures { ReadsTo result (shelf_of (view value.now)) }
{
    let shelf = read_maps(alloc, value)?;
    let lead = shelf.redirects_lead(alloc)?;
    if !lead {
        return Err(ReadError::Shape);
    }
    Ok(shelf)
}
