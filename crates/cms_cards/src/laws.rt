// What holds of dumps.
ghost use Rattle.cms_cards.specs.Dumps.{LoadsDumps};

/// A deck is loaded as the file whose dump it is, and as no other; so no two files have one dump.
pub fn dump_laws()
    ensures { LoadsDumps }
{}
