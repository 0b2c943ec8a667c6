// The words of a line and the lines of a text: pieces, which single separator bytes part.
ghost use Rattle.std.specs.Prelude.{◌≡◌, ◌<◌, ◌≤◌, ◌∷◌, length, IfSome, ◌==◌, position};
ghost use Rattle.std.specs.Option.{option_map};
ghost use Rattle.std.specs.Iterator.{YieldsFirstRef, item_count};
ghost use Rattle.text.specs.Lines.{first_piece, after_piece, piece_end_lem, pieces, pieces_after, words, three, lines, line_split, lines_from};

// The index of the first separator of a text.
fn separator_in(text: &[u8], separator: u8) -> Option<usize>
    ensures { result ≡ position (λ b. b == separator) text.now }
{
    text.iter().position(|b| *b == separator)
}

// The index of the first separator at or after `from`, or the text's length where there is none.
pub fn piece_end(text: &[u8], from: usize, separator: u8) -> usize
    ensures value { result ≡ piece_end_lem separator text.now from }
    ensures within { result ≤ length text.now }
    ensures onward { from ≤ length text.now → from ≤ result }
{
    let start = from.min(text.len());
    let rest = &text[start..];
    start + separator_in(rest, separator).unwrap_or(rest.len())
}

// The first piece of a text and what follows the separator after it, if there is a separator.
pub fn split_piece(text: &[u8], separator: u8) -> (&[u8], Option<&[u8]>)
    ensures piece { result.0.now ≡ first_piece separator text.now }
    ensures rest { option_map (λ x. x.now) result.1 ≡ after_piece separator text.now }
    ensures shorter { IfSome result.1 (λ t. length t.now < length text.now) }
    ensures pieces { pieces separator text.now ≡ result.0.now ∷ pieces_after separator (option_map (λ x. x.now) result.1) }
{
    let end = piece_end(text, 0, separator);
    (&text[..end], text.get(end + 1..))
}

// The words of a text that has three. A tuple: an array of N words that a loop fills gets no generated proof.
pub fn three_words(text: &[u8]) -> Option<(&[u8], &[u8], &[u8])>
    ensures { option_map (λ t. (t.0.now, t.1.now, t.2.now)) result ≡ three (words text.now) }
{
    let (first, rest) = split_piece(text, b' ');
    let (second, rest) = split_piece(rest?, b' ');
    let (third, rest) = split_piece(rest?, b' ');
    match rest {
        None => Some((first, second, third)),
        Some(_) => None,
    }
}

// The first line of a text and what follows its line feed, or nothing of an empty text.
pub fn split_line(text: &[u8]) -> Option<(&[u8], &[u8])>
    ensures value { option_map (λ t. (t.0.now, t.1.now)) result ≡ line_split text.now }
    ensures shorter { IfSome result (λ t. length t.1.now < length text.now) }
    ensures lines { lines text.now ≡ lines_from (option_map (λ t. (t.0.now, t.1.now)) result) }
{
    if text.is_empty() {
        return None;
    }
    let (line, rest) = split_piece(text, b'\n');
    Some((line, rest.unwrap_or(&[])))
}

// The lines of a text that are still to come.
#[derive(Drop)]
pub struct Lines<'a> {
    rest: &'a [u8],
}

impl<'a> Lines<'a> {
    pub fn of(text: &'a [u8]) -> Lines<'a>
        ensures { result.rest.now ≡ text.now }
    {
        Lines { rest: text }
    }
}

impl<'a> Iterator for Lines<'a> {
    type Item = &'a [u8];

    ghost next_gives = { YieldsFirstRef (λ s. lines s.rest.now) };

    ghost remaining = { item_count (λ s. lines s.rest.now) };

    fn next(&mut self) -> Option<&'a [u8]> {
        let (line, rest) = split_line(self.rest)?;
        self.rest = rest;
        Some(line)
    }
}

#[cfg(test)]
mod tests {
    use super::*;

    #[test]
    fn ends(rt: HostRuntime) {
        assert_eq!(rt; piece_end(b"ab cd", 0, b' '), 2);
        assert_eq!(rt; piece_end(b"ab cd", 2, b' '), 2);
        assert_eq!(rt; piece_end(b"ab cd", 3, b' '), 5);
        assert_eq!(rt; piece_end(b"ab cd", 9, b' '), 5);
        assert_eq!(rt; piece_end(b"ab cd", 0, b'd'), 4);
    }

    #[test]
    fn splits(rt: HostRuntime) {
        let (piece, rest) = split_piece(b"a,,b", b',');
        assert_eq!(rt; piece, &b"a"[..]);
        assert_eq!(rt; rest, Some(&b",b"[..]));
        assert_eq!(rt; split_piece(b"", b',').1, None);
    }

    #[test]
    fn threes(rt: HostRuntime) {
        assert_eq!(rt;
            three_words(b"a b c"),
            Some((&b"a"[..], &b"b"[..], &b"c"[..]))
        );
        assert_eq!(rt;
            three_words(b"a  b"),
            Some((&b"a"[..], &b""[..], &b"b"[..]))
        );
        assert!(rt; three_words(b"a b").is_none());
        assert!(rt; three_words(b"a b c ").is_none());
    }

    #[test]
    fn lines(rt: HostRuntime) {
        assert_eq!(rt; split_line(b""), None);
        assert_eq!(rt; split_line(b"a\n"), Some((&b"a"[..], &b""[..])));
        assert_eq!(rt; split_line(b"a\nb"), Some((&b"a"[..], &b"b"[..])));
        assert_eq!(rt; split_line(b"b"), Some((&b"b"[..], &b""[..])));
        assert_eq!(rt; split_line(b"\n\n"), Some((&b""[..], &b"\n"[..])));
    }

    #[test]
    fn lines_in_turn(rt: HostRuntime) {
        let mut lines = Lines::of(b"a\n\nb");
        assert_eq!(rt; lines.next(), Some(&b"a"[..]));
        assert_eq!(rt; lines.next(), Some(&b""[..]));
        assert_eq!(rt; lines.next(), Some(&b"b"[..]));
        assert_eq!(rt; lines.next(), None);
    }
}
