// Lines of a mode's own.
ghost use Rattle.std.specs.Prelude.{◌≡◌, ◌≢◌, ℕ, List, [], ◌∷◌, MatchOption};
ghost use Rattle.tmm_model.specs.Lines.{words};
ghost use Rattle.tmm_model.specs.Modes.{after_word, agent_form, agent_of, agents_form, own_form, repairs_form, suppose_form, timeline_form};

use crate::fields::{at_end, take_name};
use tmm_model::{Mode, ModeLine, Name};
use tmm_words::{next_word, split_word};

/// What a line says as one of the mode's own, none where it is none of these. The line may be of any
/// length. It takes no memory.
pub fn mode_line(mode: Mode, line: &[u8]) -> Option<ModeLine>
    ensures { result ≡ own_form mode line.now }
{
    match mode {
        Mode::Suppose => suppose_line(line),
        Mode::Agents => agents_line(line),
        Mode::Repairs => repairs_line(line),
        Mode::Timeline => timeline_line(line),
    }
}

fn suppose_line(line: &[u8]) -> Option<ModeLine>
    ensures { result ≡ suppose_form (words line.now) }
{
    let word = only_word(line)?;
    if word == b"suppose".as_slice() {
        return Some(ModeLine::Suppose);
    }
    if word == b"keep".as_slice() {
        return Some(ModeLine::Keep);
    }
    if word == b"drop".as_slice() {
        return Some(ModeLine::Drop);
    }
    None
}

fn agents_line(line: &[u8]) -> Option<ModeLine>
    ensures { result ≡ agents_form (after_word line.now) (words line.now) }
{
    let (begin, end) = next_word(line, 0)?;
    let agent = agent(&line[begin..end])?;
    Some(agent_line(agent, end, &line[end..]))
}

// The agent that a word names.
fn agent(word: &[u8]) -> Option<Name>
    ensures { result ≡ agent_of word.now }
{
    match word {
        [b'@', name @ ..] => Name::of(name),
        _ => None,
    }
}

// What an agent's line says, whose words behind the agent's are these. They begin at a place of the
// line.
fn agent_line(agent: Name, rest: usize, behind: &[u8]) -> ModeLine
    ensures { result ≡ agent_form rest agent (words behind.now) }
{
    match only_word(behind) {
        Some(word) if word == b"commit".as_slice() => ModeLine::Commit(agent),
        Some(word) if word == b"discard".as_slice() => ModeLine::Discard(agent),
        _ => ModeLine::Hold { agent, rest },
    }
}

fn repairs_line(line: &[u8]) -> Option<ModeLine>
    ensures { result ≡ repairs_form (words line.now) }
{
    let (word, rest) = split_word(line)?;
    let mut rest = rest;
    let name = take_name(&mut rest)?;
    at_end(rest)?;
    if word == b"repairs".as_slice() {
        Some(ModeLine::Repairs(name))
    } else {
        None
    }
}

fn timeline_line(line: &[u8]) -> Option<ModeLine>
    ensures { result ≡ timeline_form (words line.now) }
{
    let word = only_word(line)?;
    if word == b"timeline".as_slice() {
        Some(ModeLine::Timeline)
    } else {
        None
    }
}

// The word of a line that has no other, none where it has none or more.
fn only_word(line: &[u8]) -> Option<&[u8]>
    ensures { MatchOption result ((word : List ℕ) → words line.now ≢ word ∷ []) (λ word. words line.now ≡ word.now ∷ []) }
{
    let (word, rest) = split_word(line)?;
    at_end(rest)?;
    Some(word)
}
