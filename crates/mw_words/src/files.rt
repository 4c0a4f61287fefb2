// The commands of files alone, whose words have no option.

ghost use Rattle.std.specs.Prelude.{◌∷◌, map, IfOk, IfErr, codes};
ghost use Rattle.std.specs.String.{string_bytes};
ghost use Rattle.mw_words.specs.Words.{Means, IsUsage, command_in};

use crate::given::{lone_file, two_files};
use crate::{Command, WordsFault};

/// The command that the words after `wat` mean.
pub fn read_wat(words: &[String]) -> Result<Command<'_>, WordsFault>
    ensures some { IfOk result
        (λ c. Means (codes "wat" ∷ map string_bytes words.now) (command_in c)) }
    ensures usage { IfErr result (λ _. IsUsage (codes "wat" ∷ map string_bytes words.now)) }
{
    let file = lone_file(words)?;
    Ok(Command::Wat { file })
}

/// The command that the words after `check` mean.
pub fn read_check(words: &[String]) -> Result<Command<'_>, WordsFault>
    ensures some { IfOk result
        (λ c. Means (codes "check" ∷ map string_bytes words.now) (command_in c)) }
    ensures usage { IfErr result (λ _. IsUsage (codes "check" ∷ map string_bytes words.now)) }
{
    let file = lone_file(words)?;
    Ok(Command::Check { file })
}

/// The command that the words after `cert` mean.
pub fn read_cert(words: &[String]) -> Result<Command<'_>, WordsFault>
    ensures some { IfOk result
        (λ c. Means (codes "cert" ∷ map string_bytes words.now) (command_in c)) }
    ensures usage { IfErr result (λ _. IsUsage (codes "cert" ∷ map string_bytes words.now)) }
{
    let file = lone_file(words)?;
    Ok(Command::Cert { file })
}

/// The command that the words after `recheck` mean.
pub fn read_recheck(words: &[String]) -> Result<Command<'_>, WordsFault>
    ensures some { IfOk result
        (λ c. Means (codes "recheck" ∷ map string_bytes words.now) (command_in c)) }
    ensures usage { IfErr result (λ _. IsUsage (codes "recheck" ∷ map string_bytes words.now)) }
{
    let (cert, file) = two_files(words)?;
    Ok(Command::Recheck { cert, file })
}
