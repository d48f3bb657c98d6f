//! Laws about the texts of numbers.
ghost use Rattle.num_text.specs.Printed.{DecimalReadsBack, HexadecimalReadsBack};

/// The decimal text of a number reads back as the number.
#[tactic(auto, using(crate::proofs::laws::Prints::decimal_reads_back))]
pub fn decimal_reads_back()
    ensures { DecimalReadsBack }
{}

/// The hexadecimal text of a number, of any width, reads back as the number.
#[tactic(auto, using(crate::proofs::laws::Prints::hexadecimal_reads_back))]
pub fn hexadecimal_reads_back()
    ensures { HexadecimalReadsBack }
{}
