// Why a run stores nothing.
use crate::Status;
use agg_base::Text;

/// Why a run stores nothing.
#[derive(Drop)]
pub(crate) enum Stop {
    /// The words are in no form.
    Usage,
    /// The map was not fetched.
    MapMissed,
    /// The table was not fetched.
    TableMissed,
    /// The map is longer than its limit.
    MapTooLong,
    /// The table is longer than its limit.
    TableTooLong,
    /// What the map and the table hold is refused, by this line.
    Refused(Text),
}

const USAGE: &str =
    "usage: generalise FORMAT MAP TABLE OUT CERT [--splits N] [--class NAME] [--object NAME] | check FORMAT MAP TABLE OUT CERT [--class NAME] [--object NAME] | make COLUMNS ROWS SEED MAP TABLE OUT CERT [--splits N]\n";

impl Stop {
    ghost use Rattle.std.specs.Prelude.{◌≡◌};
    ghost use Rattle.generalise_core.specs.Stops.{line_of, status_of_stop};

    /// The line that is said.
    pub(crate) fn line(&self) -> &str
        ensures { result.now ≡ line_of self.now }
    {
        match self {
            Stop::Usage => USAGE,
            Stop::MapMissed => "read fault: map\n",
            Stop::TableMissed => "read fault: table\n",
            Stop::MapTooLong => "refused: map TooLong\n",
            Stop::TableTooLong => "refused: table TooLong\n",
            Stop::Refused(line) => line.as_str(),
        }
    }

    /// The status that the run ends with, once the line is said.
    pub(crate) fn status(&self) -> Status
        ensures { result ≡ status_of_stop self.now }
    {
        match self {
            Stop::Usage => Status::Usage,
            Stop::MapMissed | Stop::TableMissed => Status::ReadFault,
            Stop::MapTooLong | Stop::TableTooLong | Stop::Refused(_) => Status::Refused,
        }
    }
}
