// What holds of records in pieces.
ghost use Rattle.cms_records.specs.LawsPieces.{FirstIsTold, VaryingExtends};

/// The records of varying lengths that a file's bytes hold are told one after another, and more may be stored right behind them.
pub fn piece_laws()
    ensures first { FirstIsTold }
    ensures extends { VaryingExtends }
{}
