// Laws of canonical texts, as contracts of functions without effect.
ghost use Rattle.std.specs.Prelude.{◌≡◌};
ghost use Rattle.std.specs.Cmp.{IsTotalOrder};
ghost use Rattle.std.specs.Cmp.Lexicographic.{slice_cmp};
ghost use Rattle.std.specs.Ordering.{nat_cmp};
ghost use Rattle.std.specs.declared.cmp.Ordering.TheVariants.{Less, Greater};
ghost use Rattle.json_events.specs.Laws.{OneText, HasText, EventsWrite, WritesPrefix, HoldsFirst};
ghost use Rattle.json_events.specs.Laws.{HoldsNext, FinishedSpells, FirstBad, RefusalStays};
ghost use Rattle.json_events.specs.Laws.{TextsSoFar, TiesEqualNames, dalet, grin};
ghost use Rattle.json_events.specs.Units.{by_units};

/// A value has at most one canonical text, and has one if and only if none of its numbers is refused.
pub fn one_text()
    ensures one { OneText }
    ensures has { HasText }
{}

/// The order of names is total, and only equal names tie. It is not the order of their bytes.
pub fn order_of_names()
    ensures total { IsTotalOrder by_units }
    ensures ties { TiesEqualNames }
    ensures units { by_units dalet grin ≡ Greater }
    ensures bytes { slice_cmp nat_cmp dalet grin ≡ Less }
{}

/// The events of a value write its text, in any order of its members, and events that are accepted to the end
/// are those of a value. At each moment the text before the outermost unclosed object is written out, and the
/// member that is being written has the text of its events. A formatter holds the stage of the events so far.
pub fn events_write()
    ensures values { EventsWrite }
    ensures prefix { WritesPrefix }
    ensures spells { FinishedSpells }
    ensures so_far { TextsSoFar }
    ensures first { HoldsFirst }
    ensures next { HoldsNext }
{}

/// A list of events is refused for the first event that has a cause, and for no other. Later events change
/// nothing.
pub fn first_refusal_has_its_cause()
    ensures first { FirstBad }
    ensures stays { RefusalStays }
{}
