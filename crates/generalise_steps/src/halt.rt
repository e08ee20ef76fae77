// Why there is nothing to go on with.
use agg_base::{NoMemory, Text};

/// Why texts are refused.
#[derive(Drop)]
pub enum Halt {
    /// A step refuses them. The line says which one and why, and ends with a line feed.
    Refused(Text),
    /// Out of memory.
    Memory,
}

impl Halt {
    ghost use Rattle.std.specs.Prelude.{◌≡◌, MatchResult};

    /// The refusal by a line, where there was memory for it.
    pub fn of(line: Result<Text, NoMemory>) -> Halt
        ensures { MatchResult line (λ l. result ≡ Halt.Refused l) (λ _. result ≡ Halt.Memory) }
    {
        match line {
            Ok(line) => Halt::Refused(line),
            Err(NoMemory) => Halt::Memory,
        }
    }
}
