// Maps.
ghost use Rattle.tree.specs.MapLaws.{MapLaws};

// A key that was set has its record, a key that was deleted has none, every other key has what it had, and maps with equal look-ups are
// equal.
pub fn maps_keep_what_they_are_told()
    ensures { MapLaws }
{}
