ghost use Rattle.std.specs.Prelude.{◌≡◌};

/// The place of the next event in its innermost unclosed container.
#[derive(Clone, Copy, Debug, PartialEq, Eq)]
pub(crate) enum Spot {
    // Outside all containers: before the value, after it, and after the end.
    Start,
    Whole,
    Finished,
    // In an array: between items, before an item's value, and after it.
    Items,
    ItemDue,
    ItemDone,
    // In an object: between members, before and after the name of a member, before its value begins, and
    // before and after the value.
    Names,
    NameDue,
    NameDone,
    Named,
    ValueDue,
    ValueDone,
}

impl Spot {
    ghost use Rattle.json_events.specs.Drafts.{after_value, is_at, spot_index};

    /// Returns the place after a value, or `None` if no value may come here.
    pub(crate) fn after_value(self) -> Option<Spot>
        ensures { result ≡ after_value self }
    {
        match self {
            Spot::Start => Some(Spot::Whole),
            Spot::ItemDue => Some(Spot::ItemDone),
            Spot::ValueDue => Some(Spot::ValueDone),
            Spot::Whole
            | Spot::Finished
            | Spot::Items
            | Spot::ItemDone
            | Spot::Names
            | Spot::NameDue
            | Spot::NameDone
            | Spot::Named
            | Spot::ValueDone => None,
        }
    }

    pub(crate) fn is_at(self, other: Spot) -> bool
        ensures { result ≡ is_at self other }
    {
        self.index() == other.index()
    }

    fn index(self) -> u8
        ensures { result ≡ spot_index self }
    {
        match self {
            Spot::Start => 0,
            Spot::Whole => 1,
            Spot::Finished => 2,
            Spot::Items => 3,
            Spot::ItemDue => 4,
            Spot::ItemDone => 5,
            Spot::Names => 6,
            Spot::NameDue => 7,
            Spot::NameDone => 8,
            Spot::Named => 9,
            Spot::ValueDue => 10,
            Spot::ValueDone => 11,
        }
    }
}
