//! Words: what the words behind the program's name ask for.
ghost use Rattle.std.specs.Prelude.{[], ◌∷◌, map, MatchOption};
ghost use Rattle.relay_command.specs.Words.{Asks, IsRefused, SpellsPort, SpellsNoPort};

use relay_json::parse_number;

/// What the program is asked to do.
#[derive(Clone, Copy, Debug, PartialEq, Eq)]
pub enum Command {
    /// Runs the script that the source gives, and reports.
    Run,
    /// Makes, runs and sums up a large exchange of so many pieces.
    Gen(u64),
    /// Runs the script with each direction on a thread of its own.
    Pair,
    /// Serves a port for a peer at another.
    Serve(u16, u16),
}

/// The command that the words ask for, and `None` exactly where they ask for none. A port is plain
/// decimal digits without a leading zero, from 1 to 65,535.
pub fn parse_words(words: &[Vec<u8>]) -> Option<Command>
    ensures { MatchOption result (IsRefused (map (λ word. word.items) words.now))
        (Asks (map (λ word. word.items) words.now)) }
{
    match words {
        [word] => parse_run(word),
        [word, port, peer] => parse_serve(word, port, peer),
        [] | [_, _] | [_, _, _, _, ..] => None,
    }
}

/// The command of one word.
fn parse_run(word: &[u8]) -> Option<Command>
    ensures { MatchOption result (IsRefused (word.now ∷ [])) (Asks (word.now ∷ [])) }
{
    match word {
        b"run" => Some(Command::Run),
        _ => None,
    }
}

/// The command of a word and two ports.
fn parse_serve(word: &[u8], port: &[u8], peer: &[u8]) -> Option<Command>
    ensures { MatchOption result (IsRefused (word.now ∷ port.now ∷ peer.now ∷ []))
        (Asks (word.now ∷ port.now ∷ peer.now ∷ [])) }
{
    match word {
        b"serve" => {
            let port = parse_port(port)?;
            let peer = parse_port(peer)?;
            Some(Command::Serve(port, peer))
        }
        _ => None,
    }
}

/// The port that a word spells.
fn parse_port(word: &[u8]) -> Option<u16>
    ensures { MatchOption result (SpellsNoPort word.now) (SpellsPort word.now) }
{
    let port = parse_number(word)?;
    if port == 0 {
        return None;
    }
    Some(port)
}
