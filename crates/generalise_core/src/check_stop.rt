// Why a check gives no verdict.
use crate::Status;
use agg_base::Text;
use generalise_steps::Halt;

/// A file that a check reads.
#[derive(Clone, Copy)]
pub(crate) enum Source {
    /// The map.
    Map,
    /// The class table.
    Table,
    /// The certificate.
    Certificate,
    /// The drawn map.
    Out,
}

impl Source {
    ghost use Rattle.std.specs.Prelude.{◌≡◌};
    ghost use Rattle.generalise_core.specs.CheckLines.{missed_line, long_line};

    // The line that says that it was not read.
    fn fault_line(self) -> &'static str
        ensures { result.now ≡ missed_line self }
    {
        match self {
            Source::Map => "read fault: map\n",
            Source::Table => "read fault: table\n",
            Source::Certificate => "read fault: certificate\n",
            Source::Out => "read fault: out\n",
        }
    }

    // The line that says that it is longer than its limit.
    fn too_long(self) -> &'static str
        ensures { result.now ≡ long_line self }
    {
        match self {
            Source::Map => "refused: map TooLong\n",
            Source::Table => "refused: table TooLong\n",
            Source::Certificate => "refused: certificate TooLong\n",
            Source::Out => "refused: out TooLong\n",
        }
    }
}

/// Why a check gives no verdict, where a line says it.
#[derive(Drop)]
pub(crate) enum CheckStop {
    /// The file was not fetched.
    Missed(Source),
    /// The file is longer than its limit.
    TooLong(Source),
    /// What a file holds is refused, by this line.
    Refused(Text),
}

impl CheckStop {
    ghost use Rattle.std.specs.Prelude.{◌≡◌};
    ghost use Rattle.generalise_core.specs.CheckLines.{line_of_stop, status_of_check_stop};

    /// The line that is said.
    pub(crate) fn line(&self) -> &str
        ensures { result.now ≡ line_of_stop self.now }
    {
        match self {
            CheckStop::Missed(source) => source.fault_line(),
            CheckStop::TooLong(source) => source.too_long(),
            CheckStop::Refused(line) => line.as_str(),
        }
    }

    /// The status that the run ends with, once the line is said.
    pub(crate) fn status(&self) -> Status
        ensures { result ≡ status_of_check_stop self.now }
    {
        match self {
            CheckStop::Missed(_) => Status::ReadFault,
            CheckStop::TooLong(_) | CheckStop::Refused(_) => Status::Refused,
        }
    }
}

/// Why a check gives no verdict.
#[derive(Drop)]
pub(crate) enum NoVerdict {
    /// A line is due in its place.
    Stopped(CheckStop),
    /// Out of memory.
    Memory,
}

impl NoVerdict {
    ghost use Rattle.std.specs.Prelude.{◌≡◌};
    ghost use Rattle.generalise_core.specs.CheckHalts.{none_of};

    /// That what a file holds is refused, or that memory ran out.
    pub(crate) fn of(halt: Halt) -> NoVerdict
        ensures { result ≡ none_of halt }
    {
        match halt {
            Halt::Refused(line) => NoVerdict::Stopped(CheckStop::Refused(line)),
            Halt::Memory => NoVerdict::Memory,
        }
    }
}
