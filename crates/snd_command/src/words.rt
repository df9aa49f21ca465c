//! The words of a line. Only the space separates words.

ghost use Rattle.std.specs.Prelude.{◌≡◌, ◌≢◌, ◌+◌, ◌≤◌, length, [], ◌∷◌, IfNone, IfSome};
ghost use Rattle.std.specs.List.{position_or_len};
ghost use Rattle.snd_command.specs.Words.{AreFive, behind_word, is_space, trimmed, without_spaces, words};

// a text without the spaces at its front
pub fn skip_spaces(text: &[u8]) -> &[u8]
    ensures { result.now ≡ without_spaces text.now }
{
    for (i, c) in text.iter().enumerate() {
        if *c != b' ' {
            return &text[i..];
        }
    }
    &text[text.len()..]
}

// a text without the spaces at its end
pub fn trim_end(text: &[u8]) -> &[u8]
    ensures { result.now ≡ trimmed text.now }
{
    let mut end = text.len();
    while end > 0 && text[end - 1] == b' ' {
        end -= 1;
    }
    &text[..end]
}

// how many bytes stand before the first space
pub fn length_to_space(text: &[u8]) -> usize
    ensures length { result ≡ position_or_len is_space text.now }
    ensures within { result ≤ length text.now }
{
    for (i, c) in text.iter().enumerate() {
        if *c == b' ' {
            return i;
        }
    }
    text.len()
}

// the first word of a text, and what stands behind it
pub fn next_word(text: &[u8]) -> Option<(&[u8], &[u8])>
    ensures none { IfNone result (words text.now ≡ []) }
    ensures words { IfSome result (λ found. words text.now ≡ found.0.now ∷ words found.1.now) }
    ensures rest { IfSome result (λ found. behind_word text.now ≡ found.1.now) }
    ensures filled { IfSome result (λ found. 1 ≤ length found.0.now) }
    ensures shorter { IfSome result (λ two. length two.0.now + length two.1.now ≤ length text.now) }
{
    let text = skip_spaces(text);
    if text.is_empty() {
        return None;
    }
    let end = length_to_space(text);
    Some((&text[..end], &text[end..]))
}

// the one word of a text
pub fn one_word(text: &[u8]) -> Option<&[u8]>
    ensures none { IfNone result (length (words text.now) ≢ 1) }
    ensures word { IfSome result (λ word. words text.now ≡ word.now ∷ []) }
{
    let (word, rest) = next_word(text)?;
    if next_word(rest).is_some() {
        return None;
    }
    Some(word)
}

// the two words of a text
pub fn two_words(text: &[u8]) -> Option<(&[u8], &[u8])>
    ensures none { IfNone result (length (words text.now) ≢ 2) }
    ensures words { IfSome result (λ two. words text.now ≡ two.0.now ∷ two.1.now ∷ []) }
{
    let (first, rest) = next_word(text)?;
    let second = one_word(rest)?;
    Some((first, second))
}

// the five words of a text
pub fn five_words(text: &[u8]) -> Option<(&[u8], &[u8], &[u8], &[u8], &[u8])>
    ensures none { IfNone result (length (words text.now) ≢ 5) }
    ensures words { IfSome result (λ w. AreFive text.now w.0.now w.1.now w.2.now w.3.now w.4.now) }
{
    let (first, rest) = next_word(text)?;
    let (second, rest) = next_word(rest)?;
    let (third, rest) = next_word(rest)?;
    let (fourth, fifth) = two_words(rest)?;
    Some((first, second, third, fourth, fifth))
}
