// The columns of a line.
ghost use Rattle.std.specs.Prelude.{◌≡◌};
ghost use Rattle.cms_listfile.specs.Lines as spec;

/// How much of a year is shown.
#[derive(Clone, Copy)]
pub enum Years {
    /// its last two digits
    Short,
    /// all four
    Whole,
}

/// How far the columns of a line go; each has those in front of it too.
#[derive(Clone, Copy)]
pub enum Columns {
    /// the file name
    Name,
    /// the file type
    Kind,
    /// the letter and the mode number
    Mode,
    /// the format and the record length
    Format,
    /// the records and the data blocks
    Alloc,
    /// the date and the time
    Date(Years),
    /// the volume id of the disk
    Label(Years),
}

impl Columns {
    /// How many columns there are, 1 to 9.
    pub fn count(self) -> usize
        ensures { result ≡ spec.count_of self }
    {
        match self {
            Columns::Name => 1,
            Columns::Kind => 2,
            Columns::Mode => 3,
            Columns::Format => 5,
            Columns::Alloc => 7,
            Columns::Date(_) => 8,
            Columns::Label(_) => 9,
        }
    }

    /// How much of a year the date shows; where no date is shown it doesn't matter.
    pub fn years(self) -> Years
        ensures { result ≡ spec.years_of self }
    {
        match self {
            Columns::Date(years) | Columns::Label(years) => years,
            _ => Years::Short,
        }
    }

    /// These columns with whole years: they go to the date at least.
    pub fn with_whole_years(self) -> Columns
        ensures { result ≡ spec.whole_years self }
    {
        match self {
            Columns::Label(_) => Columns::Label(Years::Whole),
            _ => Columns::Date(Years::Whole),
        }
    }
}
