//! Scripts whose lines are printed beside their answers, as a transcript.
//!
//! Promised: the result for a line is what is after the mark `> `, or all of a line that has none.
//! What is printed no clause says.
#![tactic(auto)]

ghost use Rattle.std.specs.Prelude.{◌≡◌, ◌≢◌, ◌++◌, List, ℕ, IfOk, codes};

use std::io;

/// Prints a line of a script that begins with `> `, a comment or an empty line as it is, and gives
/// what of it is played: what is after the mark, or all of a line that has none.
pub fn echo<'t>(rt: &impl Print, line: &'t str) -> io::Result<&'t str>
    ensures marked { IfOk result (λ played. (rest : List ℕ) → line.now ≡ codes "> " ++ rest → played.now ≡ rest) }
    ensures unmarked { IfOk result (λ played. ((rest : List ℕ) → line.now ≢ codes "> " ++ rest) → played.now ≡ line.now) }
{
    let marked = line.strip_prefix("> ");
    if marked.is_some() || line.is_empty() || line.starts_with("--") {
        println!(rt; "{line}")?;
    }
    Ok(marked.unwrap_or(line))
}
