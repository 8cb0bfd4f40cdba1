//! Laws over the definitions alone.
ghost use Rattle.a64_asm.specs.Laws.{AreInverse, AreWords};

/// What a listing gives, assembled again, is the image that was listed: for every image of whole words, of a mebibyte at most.
/// The function does nothing; its contract is the law.
pub fn a_listing_gives_its_image_back()
    ensures { AreInverse }
{}

/// The word that stands in an image for a line that says an instruction decodes to that instruction. The function does
/// nothing; its contract is the law.
pub fn a_line_gives_the_word_of_its_instruction()
    ensures { AreWords }
{}
