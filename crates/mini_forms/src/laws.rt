// What holds of the forms in both directions.
ghost use Rattle.mini_forms.specs.Laws.{ComesBack, LinesStay, BinaryStays, RecordsStay};

/// A host file that is written of records stands for these records, and what is written of the records of a host file is that
/// file, but for its line ends, single blanks, blanks at the ends of lines and zeros behind its last bytes.
pub fn form_laws()
    ensures back { ComesBack }
    ensures lines { LinesStay }
    ensures binary { BinaryStays }
    ensures records { RecordsStay }
{}
