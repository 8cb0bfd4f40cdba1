//! A law over the definitions alone.
ghost use Rattle.a64_decode.specs.declared.instr.Instr.{Instr};
ghost use Rattle.a64_encode.specs.Encode.{HasOneWord};

/// Every word that decodes to an instruction is its word. The function does nothing; its contract is the law.
pub fn an_instruction_has_one_word()
    ensures { (instr : Instr) → HasOneWord instr }
{}
