// The words of a line.
ghost use Rattle.std.specs.Prelude.{◌≡◌, ◌∷◌, [], ◌≤◌, ◌<◌, drop, position, slice_range, length, not, IfSome, IsNone, ◌↔◌, MatchOption};
ghost use Rattle.tmm_model.specs.Lines.{is_blank, words};
ghost use Rattle.tmm_grammar.specs.LineCuts.{AreBlanks};
ghost use Rattle.tmm_words.specs.Places.{IsFirstWord};

/// Where the first word of the line at or after a place begins and ends, none exactly where there
/// is none.
pub fn next_word(line: &[u8], from: usize) -> Option<(usize, usize)>
    requires { from ≤ length line.now }
    ensures none { IsNone result ↔ AreBlanks (drop from line.now) }
    ensures some { IfSome result (λ w. IsFirstWord line.now from w.0 w.1) }
{
    let rest = &line[from..];
    let begin = first_byte(rest)?;
    let word = &rest[begin..];
    let len = first_blank(word).unwrap_or(word.len());
    Some((from + begin, from + begin + len))
}

/// The first word of the line and what follows it, none exactly where there is no word.
pub fn split_word(line: &[u8]) -> Option<(&[u8], &[u8])>
    ensures { MatchOption result (words line.now ≡ []) (λ x. words line.now ≡ x.0.now ∷ words x.1.now) }
{
    let (begin, end) = next_word(line, 0)?;
    Some((&line[begin..end], &line[end..]))
}

// The place of the first byte that is no blank.
fn first_byte(bytes: &[u8]) -> Option<usize>
    ensures place { result ≡ position (λ b. not (is_blank b)) bytes.now }
    ensures within { IfSome result (λ i. i < length bytes.now) }
{
    bytes.iter().position(|b| !blank(*b))
}

// The place of the first blank.
fn first_blank(bytes: &[u8]) -> Option<usize>
    ensures place { result ≡ position is_blank bytes.now }
    ensures within { IfSome result (λ i. i < length bytes.now) }
{
    bytes.iter().position(|b| blank(*b))
}

fn blank(b: u8) -> bool
    ensures { result ≡ is_blank b }
{
    b == b' ' || b == b'\t' || b == b'\r'
}
