//! A text, cut at a byte.
ghost use Rattle.std.specs.Prelude.{◌≡◌, MatchOption};
ghost use Rattle.a64_asm.specs.Text.{cut_of, operand_of, Whole, Parts};

/// The bytes before the first of these, and those after it, where there is one, in the words of the forms of lines.
#[tactic(auto, using(crate::proofs::Cuts::in_parts, crate::proofs::Cuts::whole))]
pub(crate) fn cut_at(text: &[u8], byte: u8) -> Option<(&[u8], &[u8])>
    ensures { MatchOption result (cut_of byte text.now ≡ Whole)
        (λ cut. cut_of byte text.now ≡ Parts cut.0.now cut.1.now) }
{
    text_lines::cut_at(text, byte)
}

/// The first operand, and those after its comma and blank, where there are more.
#[tactic(auto, unfolding(crate::specs::Text::operand_of))]
pub(crate) fn first_operand(text: &[u8]) -> Option<(&[u8], &[u8])>
    ensures { MatchOption result (operand_of text.now ≡ Whole)
        (λ cut. operand_of text.now ≡ Parts cut.0.now cut.1.now) }
{
    let (front, behind) = cut_at(text, b',')?;
    match behind.split_first() {
        Some((b' ', rest)) => Some((front, rest)),
        _ => None,
    }
}
