// The lines of a text, and the fields of a line.
ghost use Rattle.std.specs.Prelude.{not, false, ◌≡◌, ◌<◌, ◌≤◌, ◌==◌, length, [], ◌∷◌, MatchOption, IfSome};
ghost use Rattle.std.specs.List.{position_or_len};
ghost use Rattle.std.specs.Str.Lines.{lines, strip_carriage_return};
ghost use Rattle.street_graph.specs.Text.{is_blank, fields, first_is, BeginsWithWord};

// How many bytes stand before the first line feed, or all where there is none.
#[tactic(auto, using(std::proofs::lemmas::List::Sums::position_or_len_is))]
fn line_len(text: &[u8]) -> usize
    ensures place { result ≡ position_or_len (λ b. b == 10) text.now }
    ensures within { result ≤ length text.now }
{
    for (i, byte) in text.iter().enumerate() {
        if *byte == b'\n' {
            return i;
        }
    }
    text.len()
}

// How many blanks a line begins with.
#[tactic(auto, using(std::proofs::lemmas::List::Sums::position_or_len_is))]
fn blanks_len(line: &[u8]) -> usize
    ensures place { result ≡ position_or_len (λ b. not (is_blank b)) line.now }
    ensures within { result ≤ length line.now }
{
    for (i, byte) in line.iter().enumerate() {
        if *byte != b' ' && *byte != b'\t' {
            return i;
        }
    }
    line.len()
}

// How many bytes stand before the first blank, or all where there is none.
#[tactic(auto, using(std::proofs::lemmas::List::Sums::position_or_len_is))]
fn field_len(line: &[u8]) -> usize
    ensures place { result ≡ position_or_len is_blank line.now }
    ensures within { result ≤ length line.now }
{
    for (i, byte) in line.iter().enumerate() {
        if *byte == b' ' || *byte == b'\t' {
            return i;
        }
    }
    line.len()
}

// A line without the carriage return at its end.
fn without_return(line: &[u8]) -> &[u8]
    ensures { result.now ≡ strip_carriage_return line.now }
{
    match line {
        [front @ .., b'\r'] => front,
        _ => line,
    }
}

// The first line of a text, and the bytes behind it.
pub(crate) fn next_line(text: &[u8]) -> (&[u8], &[u8])
    requires { 0 < length text.now }
    ensures first { lines text.now ≡ result.0.now ∷ lines result.1.now }
    ensures shorter { length result.1.now < length text.now }
{
    let end = line_len(text);
    if end == text.len() {
        (text, &text[end..])
    } else {
        (without_return(&text[..end]), &text[end + 1..])
    }
}

// The first field of a line, and the bytes behind it, or None where the line has no field.
pub(crate) fn next_field(line: &[u8]) -> Option<(&[u8], &[u8])>
    ensures field { MatchOption result (fields line.now ≡ []) (λ first. fields line.now ≡ first.0.now ∷ fields first.1.now) }
    ensures some { IfSome result (λ first. 0 < length first.0.now) }
{
    let begin = blanks_len(line);
    if begin == line.len() {
        return None;
    }
    let line = &line[begin..];
    let end = field_len(line);
    Some((&line[..end], &line[end..]))
}

// The bytes behind the first field of a line, or None where the first field is not this word.
pub(crate) fn next_word<'a>(line: &'a [u8], word: &[u8]) -> Option<&'a [u8]>
    ensures { MatchOption result (first_is (fields line.now) word.now ≡ false)
        (λ rest. BeginsWithWord (fields line.now) word.now (fields rest.now)) }
{
    let Some((field, more)) = next_field(line) else {
        return None;
    };
    if field == word { Some(more) } else { None }
}
