ghost use Rattle.std.specs.Prelude.{◌≡◌, ◌∷◌, [], not, IfNone, IfSome};
ghost use Rattle.std.specs.List.{prefix_len};
ghost use Rattle.warp_core.specs.Schedule.{is_blank, words_of};

fn is_blank(byte: u8) -> bool
    ensures { result ≡ is_blank byte }
{
    byte == b' ' || byte == b'\t'
}

/// How many blanks stand in front.
fn blank_len(text: &[u8]) -> usize
    ensures { result ≡ prefix_len is_blank text.now }
{
    text.iter().take_while(|byte| is_blank(**byte)).count()
}

/// How many bytes stand before the first blank.
fn word_len(text: &[u8]) -> usize
    ensures { result ≡ prefix_len (λ byte. not (is_blank byte)) text.now }
{
    text.iter().take_while(|byte| !is_blank(**byte)).count()
}

/// The first word of a text, and what follows it; none where there is no word.
pub fn next_word(text: &[u8]) -> Option<(&[u8], &[u8])>
    ensures none { IfNone result (words_of text.now ≡ []) }
    ensures some { IfSome result (λ found. words_of text.now ≡ found.0.now ∷ words_of found.1.now) }
{
    let (_, rest) = text.split_at(blank_len(text));
    if rest.is_empty() {
        return None;
    }
    Some(rest.split_at(word_len(rest)))
}
