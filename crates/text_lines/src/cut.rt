ghost use Rattle.std.specs.Prelude.{MatchOption};
ghost use Rattle.text_lines.specs.Cut.{IsWhole, IsCut};

/// The bytes before the first of these, and those after it, where there is one.
pub fn cut_at(text: &[u8], byte: u8) -> Option<(&[u8], &[u8])>
    ensures { MatchOption result (IsWhole byte text.now) (λ cut. IsCut byte text.now cut.0.now cut.1.now) }
{
    match text.iter().position(|other| *other == byte) {
        Some(at) => {
            let (front, back) = text.split_at(at);
            let (_byte, after) = back.split_at(1);
            Some((front, after))
        }
        None => None,
    }
}
